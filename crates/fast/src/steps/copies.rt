// The copy of a logical block's pages into one block, offset by offset.

ghost use Rattle.std.specs.Prelude.{◌≡◌, ◌-◌, ◌<◌, ◌≤◌, length, None};
ghost use Rattle.flash.specs.Calls.{is_blank};
ghost use Rattle.scheme.specs.Steps.{transfer};
ghost use Rattle.scheme.specs.Work.{seen, each};
ghost use Rattle.fast.specs.Leaves.{page_told, fresh_view, Carries};

use crate::numbers::LogicalBlock;
use crate::steps::Fresh;
use crate::tables::Tables;
use flash::device::{Device, Mark, SECTOR_SIZE};
use flash::numbers::{Block, PageOffset};

// What the device shows of a page, with its bytes in the buffer: nothing where it refuses the read.
fn see<D: Device>(
    device: &D,
    block: Block,
    page: PageOffset,
    buffer: &mut [u8; SECTOR_SIZE],
) -> Option<Mark>
    ensures { page_told result buffer.new ≡ seen (D.Device.flash device.now) block.0 page.0 }
{
    device.read(block, page, buffer).unwrap_or(None)
}

// Whether a page is shown as blank.
pub(crate) fn vacant<D: Device>(device: &D, block: Block, page: PageOffset) -> bool
    ensures { result ≡ is_blank (seen (D.Device.flash device.now) block.0 page.0) }
{
    let mut buffer = [0u8; SECTOR_SIZE];
    see(device, block, page, &mut buffer).is_none()
}

// Copies the page in the place of an offset, mark and all; a blank one stays blank. Says how many pages that is.
fn copy_page<D: Device>(
    device: &mut D,
    tables: &Tables,
    c: LogicalBlock,
    to: Block,
    o: PageOffset,
) -> u32
    requires known { c.0 < tables.now.sizes.logical }
    requires fits { o.0 < tables.now.sizes.pages }
    ensures work { Carries D.Device.flash (transfer tables.now.sizes.pages None c.0 to.0 o.0) device.old tables.now device.new result }
    ensures few { result ≤ 1 }
{
    let (block, page) = tables.place(c, o);
    let mut buffer = [0u8; SECTOR_SIZE];
    // a `match`, since the device is asked in one case: no method of `Option` reads plainer
    match see(device, block, page, &mut buffer) {
        None => 0,
        Some(mark) => {
            let _ = device.program(to, o, mark, &buffer);
            1
        }
    }
}

// Gives a block the page of an offset: the new one if there is one for it, else a copy.
fn carry<D: Device>(
    device: &mut D,
    tables: &Tables,
    fresh: Option<Fresh>,
    c: LogicalBlock,
    to: Block,
    o: PageOffset,
) -> u32
    requires known { c.0 < tables.now.sizes.logical }
    requires fits { o.0 < tables.now.sizes.pages }
    ensures work { Carries D.Device.flash (transfer tables.now.sizes.pages (fresh_view fresh.entry) c.0 to.0 o.0) device.old tables.now device.new result }
    ensures few { result ≤ 1 }
{
    match fresh {
        Some(new) if new.offset == o => {
            let _ = device.program(to, o, new.page.mark, new.page.bytes);
            0
        }
        _ => copy_page(device, tables, c, to, o),
    }
}

// Gives a block the pages of the offsets from `first` on, in order. Says how many were copied. A `for`, since each page is programmed
// before the next is read: a chain would hide that the device changes in between.
pub(crate) fn carry_from<D: Device>(
    device: &mut D,
    tables: &Tables,
    fresh: Option<Fresh>,
    c: LogicalBlock,
    to: Block,
    first: u32,
) -> u32
    requires known { c.0 < tables.now.sizes.logical }
    requires fits { first ≤ tables.now.sizes.pages }
    ensures work { Carries D.Device.flash (each (transfer tables.now.sizes.pages (fresh_view fresh.entry) c.0 to.0) first (tables.now.sizes.pages - first)) device.old tables.now device.new result }
    ensures few { result ≤ tables.now.sizes.pages }
{
    let mut copies = 0;
    for o in first..tables.sizes.pages {
        copies += carry(device, tables, fresh, c, to, PageOffset(o));
    }
    copies
}
