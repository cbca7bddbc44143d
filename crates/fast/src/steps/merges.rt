// Merges: the newest pages of a logical block brought together in one block, which becomes its data block.
//
// In each the pages are copied first, then the tables change as a whole, and the dead blocks are erased last. So at each moment the place
// of every sector holds its newest bytes, and no block is erased in which a place still lies.

ghost use Rattle.std.specs.Prelude.{◌≡◌, ◌<◌, [], ◌∷◌, Some, None};
ghost use Rattle.scheme.specs.Roles.{finished};
ghost use Rattle.scheme.specs.Steps.{merge, merge_free, settle};
ghost use Rattle.scheme.specs.Tables.{owned};
ghost use Rattle.fast.specs.Leaves.{fresh_view, Few, DoesSized};
ghost use Rattle.fast.specs.Meaning.{view_of, Logged};
ghost use Rattle.fast.specs.Views.{sw_view};

use crate::numbers::LogicalBlock;
use crate::steps::copies::carry_from;
use crate::steps::{Fresh, Step};
use crate::tables::Tables;
use crate::tables::sequential::Sw;
use flash::device::Device;

// Merges a logical block that does not own the sequential log block into the first free block.
fn merge_free<D: Device>(
    device: &mut D,
    tables: Tables,
    fresh: Option<Fresh>,
    c: LogicalBlock,
) -> Step
    requires known { c.0 < tables.sizes.logical }
    requires unowned { owned c.0 (sw_view tables.sw) ≡ None }
    ensures work { DoesSized D.Device.flash (merge_free tables.sizes.pages (fresh_view fresh.entry) c.0 (view_of tables).free ((view_of tables).data_block c.0 ∷ [])) device.old tables device.new result }
    ensures few { Few 1 tables.sizes.pages result }
    ensures logged { Logged result.tables tables }
{
    let to = tables.first_free();
    let copies = carry_from(device, &tables, fresh, c, to, 0);
    let (tables, old) = tables.renew(c);
    let _ = device.erase(old);
    Step {
        tables,
        erases: 1,
        copies,
    }
}

// Merges the owner of the sequential log block into that block: a switch if it is full, for then there is nothing to copy.
pub(crate) fn merge_sw<D: Device>(
    device: &mut D,
    tables: Tables,
    fresh: Option<Fresh>,
    sw: Sw,
) -> Step
    requires has { tables.sw ≡ Some sw }
    ensures work { DoesSized D.Device.flash (merge tables.sizes.pages finished (fresh_view fresh.entry) sw.owner.0 sw.block.0 sw.fill (view_of tables).free ((view_of tables).data_block sw.owner.0 ∷ [])) device.old tables device.new result }
    ensures few { Few 1 tables.sizes.pages result }
    ensures none { result.tables.sw ≡ None }
    ensures logged { Logged result.tables tables }
{
    let copies = carry_from(device, &tables, fresh, sw.owner, sw.block, sw.fill);
    let (tables, old) = tables.adopt(sw);
    let _ = device.erase(old);
    Step {
        tables,
        erases: 1,
        copies,
    }
}

// Merges the owner of the sequential log block into the first free block, and gives up the log block with the old data block.
pub(crate) fn merge_over<D: Device>(
    device: &mut D,
    tables: Tables,
    fresh: Option<Fresh>,
    sw: Sw,
) -> Step
    requires has { tables.sw ≡ Some sw }
    ensures work { DoesSized D.Device.flash (merge_free tables.sizes.pages (fresh_view fresh.entry) sw.owner.0 (view_of tables).free ((view_of tables).data_block sw.owner.0 ∷ sw.block.0 ∷ [])) device.old tables device.new result }
    ensures few { Few 2 tables.sizes.pages result }
{
    let to = tables.first_free();
    let copies = carry_from(device, &tables, fresh, sw.owner, to, 0);
    let (tables, old) = tables.replace(sw);
    let _ = device.erase(old);
    let _ = device.erase(sw.block);
    Step {
        tables,
        erases: 2,
        copies,
    }
}

// Brings the newest pages of a logical block together in one block, with a new page for one offset if there is one.
pub(crate) fn settle<D: Device>(
    device: &mut D,
    tables: Tables,
    fresh: Option<Fresh>,
    c: LogicalBlock,
) -> Step
    requires known { c.0 < tables.sizes.logical }
    ensures work { DoesSized D.Device.flash (settle tables.sizes.pages (fresh_view fresh.entry) c.0) device.old tables device.new result }
    ensures few { Few 1 tables.sizes.pages result }
    ensures logged { Logged result.tables tables }
{
    match tables.owned(c) {
        Some(sw) => merge_sw(device, tables, fresh, sw),
        None => merge_free(device, tables, fresh, c),
    }
}
