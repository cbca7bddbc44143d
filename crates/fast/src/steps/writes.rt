// The cases of an accepted write. W0, the first write of a sector, goes into its data block; every other is an overwrite: W1 of offset 0
// opens a sequential log block, W2 goes on in the one that the logical block owns, and W3 goes into the random log blocks.

ghost use Rattle.std.specs.Prelude.{◌≡◌, ◌+◌, ◌-◌, ◌*◌, ◌/◌, ◌%◌, ◌<◌, ◌≤◌, Some, None};
ghost use Rattle.std.specs.VecDeque.{deque_len};
ghost use Rattle.flash.specs.Calls.{is_blank};
ghost use Rattle.scheme.specs.Steps.{write_first, open_sequential, settle_owner, write_start, append_sequential, write_sequential, visit, reclaim, thinned, make_room, append_random, write_random, overwrite, write};
ghost use Rattle.scheme.specs.Work.{each, seen};
ghost use Rattle.fast.specs.Leaves.{page_made, is_first, Few, Does, Writes, DoesSized, WritesSized};
ghost use Rattle.fast.specs.Meaning.{view_of, Full, HasRoom, Logged};
ghost use Rattle.fast.specs.Views.{sequential_of};

use crate::numbers::LogicalBlock;
use crate::steps::merges::{merge_over, merge_sw, settle};
use crate::steps::{Fresh, Page, Step, WriteKind};
use crate::tables::Tables;
use crate::tables::random::Entry;
use crate::tables::sequential::Sw;
use flash::device::{Device, Mark};
use flash::numbers::{PageOffset, Sector};

// Takes the first free block as sequential log block of a logical block, with its page 0.
fn open_sw<D: Device>(device: &mut D, tables: Tables, b: LogicalBlock, page: Page) -> Tables
    requires known { b.0 < tables.sizes.logical }
    requires none { tables.sw ≡ None }
    ensures work { WritesSized D.Device.flash (open_sequential tables.sizes.pages b.0 (page_made page.entry) (view_of tables).free) device.old tables device.new result }
{
    let to = tables.first_free();
    let _ = device.program(to, PageOffset(0), page.mark, page.bytes);
    tables.open(b)
}

// Settles the owner of the sequential log block, if there is one.
fn settle_owner<D: Device>(device: &mut D, tables: Tables) -> Step
    ensures work { DoesSized D.Device.flash (settle_owner tables.sizes.pages (view_of tables).sequential) device.old tables device.new result }
    ensures few { Few 1 tables.sizes.pages result }
    ensures none { result.tables.sw ≡ None }
{
    let Some(sw) = tables.sw else {
        return Step::new(tables);
    };
    merge_sw(device, tables, None, sw)
}

// W1: an overwrite of offset 0. The owner is settled even if it is b itself: its log begins anew.
fn write_start<D: Device>(device: &mut D, tables: Tables, b: LogicalBlock, page: Page) -> Step
    requires known { b.0 < tables.sizes.logical }
    ensures work { DoesSized D.Device.flash (write_start tables.sizes.pages b.0 (page_made page.entry)) device.old tables device.new result }
{
    let Step {
        tables,
        erases,
        copies,
    } = settle_owner(device, tables);
    Step {
        tables: open_sw(device, tables, b, page),
        erases,
        copies,
    }
}

// A sector into the next page of the sequential log block.
fn append_sw<D: Device>(device: &mut D, tables: Tables, sw: Sw, page: Page) -> Tables
    requires has { tables.sw ≡ Some sw }
    requires short { sw.fill < tables.sizes.pages }
    ensures work { WritesSized D.Device.flash (append_sequential tables.sizes.pages page.entry.mark.sector.0 sw.fill (page_made page.entry) (sequential_of sw)) device.old tables device.new result }
{
    let _ = device.program(sw.block, PageOffset(sw.fill), page.mark, page.bytes);
    tables.extend(sw, page.mark.sector)
}

// W2: an overwrite of an offset other than 0, of the block that owns the sequential log block.
fn write_sequential<D: Device>(
    device: &mut D,
    tables: Tables,
    sw: Sw,
    o: PageOffset,
    page: Page,
) -> Step
    requires has { tables.sw ≡ Some sw }
    requires fits { o.0 < tables.sizes.pages }
    ensures work { DoesSized D.Device.flash (write_sequential tables.sizes.pages page.entry.mark.sector.0 sw.owner.0 o.0 (page_made page.entry) (sequential_of sw)) device.old tables device.new result }
{
    // an offset against a count of pages, which are two types on purpose
    if o.0 == sw.fill {
        return Step::new(append_sw(device, tables, sw, page));
    }
    let fresh = Some(Fresh { offset: o, page });
    if sw.fill < o.0 {
        return settle(device, tables, fresh, sw.owner);
    }
    merge_over(device, tables, fresh, sw)
}

// One entry of the victim: a live one has its logical block settled.
fn visit<D: Device>(device: &mut D, tables: Tables, i: u32) -> Step
    requires within { i < deque_len tables.rw.entries }
    ensures work { DoesSized D.Device.flash (visit tables.sizes.pages i) device.old tables device.new result }
    ensures few { Few 1 tables.sizes.pages result }
    ensures logged { Logged result.tables tables }
{
    let Entry::Live(sector) = tables.rw.entries[i as usize] else {
        return Step::new(tables);
    };
    let (c, _) = tables.sizes.split(sector);
    settle(device, tables, None, c)
}

// Visits every entry of the victim in page order. Each is looked up when its turn comes, for an earlier settle may have made it stale: so
// a `for` over their numbers, and no iterator over the entries, which would hold the tables.
fn visit_all<D: Device>(device: &mut D, tables: Tables) -> Step
    requires long { tables.sizes.pages ≤ deque_len tables.rw.entries }
    ensures work { DoesSized D.Device.flash (each (visit tables.sizes.pages) 0 tables.sizes.pages) device.old tables device.new result }
    ensures few { Few tables.sizes.pages (tables.sizes.pages * tables.sizes.pages) result }
    ensures logged { Logged result.tables tables }
{
    let pages = tables.sizes.pages;
    let mut tables = tables;
    let mut erases = 0;
    let mut copies = 0;
    for i in 0..pages {
        let step = visit(device, tables, i);
        tables = step.tables;
        erases += step.erases;
        copies += step.copies;
    }
    Step {
        tables,
        erases,
        copies,
    }
}

// Settles what is live in the oldest random log block, the victim, and makes that block free.
fn reclaim<D: Device>(device: &mut D, tables: Tables) -> Step
    requires some { 0 < deque_len tables.rw.blocks }
    requires full { Full tables }
    ensures work { DoesSized D.Device.flash (reclaim tables.sizes.pages) device.old tables device.new result }
    ensures few { Few (tables.sizes.pages + 1) (tables.sizes.pages * tables.sizes.pages) result }
    ensures logs { deque_len result.tables.rw.blocks + 1 ≡ deque_len tables.rw.blocks }
    ensures entries { deque_len result.tables.rw.entries ≡ deque_len tables.rw.entries - tables.sizes.pages }
{
    let Step {
        tables,
        erases,
        copies,
    } = visit_all(device, tables);
    let (tables, victim) = tables.retire();
    let _ = device.erase(victim);
    Step {
        tables,
        erases: erases + 1,
        copies,
    }
}

// Makes fewer random log blocks than there may be, where all are full.
fn thin<D: Device>(device: &mut D, tables: Tables) -> Step
    requires full { Full tables }
    ensures work { DoesSized D.Device.flash (thinned tables.sizes.pages tables.sizes.random) device.old tables device.new result }
    ensures few { Few (tables.sizes.pages + 1) (tables.sizes.pages * tables.sizes.pages) result }
    ensures fewer { deque_len result.tables.rw.blocks < result.tables.sizes.random }
    ensures full { Full result.tables }
{
    if tables.rw.blocks.len() < tables.sizes.random as usize {
        return Step::new(tables);
    }
    reclaim(device, tables)
}

// Makes sure that the last random log block has a blank page.
fn make_room<D: Device>(device: &mut D, tables: Tables) -> Step
    ensures work { DoesSized D.Device.flash (make_room tables.sizes.pages tables.sizes.random) device.old tables device.new result }
    ensures few { Few (tables.sizes.pages + 1) (tables.sizes.pages * tables.sizes.pages) result }
    ensures room { HasRoom result.tables }
{
    if tables.rw.entries.len() < tables.sizes.pages as usize * tables.rw.blocks.len() {
        return Step::new(tables);
    }
    let Step {
        tables,
        erases,
        copies,
    } = thin(device, tables);
    Step {
        tables: tables.take_log(),
        erases,
        copies,
    }
}

// A sector into the next page of the random log blocks.
fn append_rw<D: Device>(device: &mut D, tables: Tables, page: Page) -> Tables
    requires known { page.mark.sector.0 < tables.sizes.logical * tables.sizes.pages }
    requires room { HasRoom tables }
    ensures work { WritesSized D.Device.flash (append_random tables.sizes.pages page.entry.mark.sector.0 (page_made page.entry)) device.old tables device.new result }
{
    let used = tables.rw.entries.len();
    let (block, o) = tables.rw.page_of(used, tables.sizes.pages);
    let _ = device.program(block, o, page.mark, page.bytes);
    tables.note(page.mark.sector)
}

// W3: an overwrite of an offset other than 0, of a block that does not own the sequential log block.
fn write_random<D: Device>(device: &mut D, tables: Tables, page: Page) -> Step
    requires known { page.mark.sector.0 < tables.sizes.logical * tables.sizes.pages }
    ensures work { DoesSized D.Device.flash (write_random tables.sizes.pages tables.sizes.random page.entry.mark.sector.0 (page_made page.entry)) device.old tables device.new result }
{
    let Step {
        tables,
        erases,
        copies,
    } = make_room(device, tables);
    Step {
        tables: append_rw(device, tables, page),
        erases,
        copies,
    }
}

// A write of a sector that holds bytes already.
fn overwrite<D: Device>(
    device: &mut D,
    tables: Tables,
    b: LogicalBlock,
    o: PageOffset,
    page: Page,
) -> Step
    requires known { b.0 < tables.sizes.logical }
    requires fits { o.0 < tables.sizes.pages }
    requires sector { page.mark.sector.0 < tables.sizes.logical * tables.sizes.pages }
    ensures work { DoesSized D.Device.flash (overwrite tables.sizes.pages tables.sizes.random page.entry.mark.sector.0 b.0 o.0 (page_made page.entry)) device.old tables device.new result }
{
    // an offset as the count of pages before it
    if o.0 == 0 {
        return write_start(device, tables, b, page);
    }
    match tables.owned(b) {
        Some(sw) => write_sequential(device, tables, sw, o, page),
        None => write_random(device, tables, page),
    }
}

// W0: the first write of a sector, which changes no table.
fn write_first<D: Device>(
    device: &mut D,
    tables: &Tables,
    b: LogicalBlock,
    o: PageOffset,
    page: Page,
)
    requires known { b.0 < tables.now.sizes.logical }
    ensures { Writes D.Device.flash (write_first tables.now.sizes.pages b.0 o.0 (page_made page.entry)) device.old tables.now device.new tables.now }
{
    let _ = device.program(tables.map[b.0 as usize], o, page.mark, page.bytes);
}

// An accepted write, which uses the next stamp. Its kind says whether the sector's data page is blank, as the checks found it.
pub(crate) fn write_accepted<D: Device>(
    device: &mut D,
    tables: Tables,
    kind: WriteKind,
    sector: Sector,
    bytes: &[u8],
) -> Step
    requires known { sector.0 < tables.sizes.logical * tables.sizes.pages }
    requires left { tables.next < 0xFFFFFFFF }
    requires found { is_first kind ≡ is_blank (seen (D.Device.flash device.old) ((view_of tables).data_block (sector.0 / tables.sizes.pages)) (sector.0 % tables.sizes.pages)) }
    ensures work { Does D.Device.flash (write tables.sizes.pages tables.sizes.random sector.0 bytes.now) device.old tables device.new result }
    ensures sized { result.tables.sizes ≡ tables.sizes }
{
    let (b, o) = tables.sizes.split(sector);
    let page = Page {
        mark: Mark {
            sector,
            stamp: tables.next,
        },
        bytes,
    };
    match kind {
        WriteKind::First => {
            write_first(device, &tables, b, o, page);
            Step::new(tables.stamp())
        }
        WriteKind::Overwrite => {
            let Step {
                tables,
                erases,
                copies,
            } = overwrite(device, tables, b, o, page);
            Step {
                tables: tables.stamp(),
                erases,
                copies,
            }
        }
    }
}
