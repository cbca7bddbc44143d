// Program and erase, each with the read that shows what it did.
//
// These are the laws of every device, stated on calls: what was programmed is what is read next, after an erase each page of the block reads
// blank, and nothing else has changed.

ghost use Rattle.std.specs.Prelude.{◌≡◌, true, length, replicate};
ghost use Rattle.flash.specs.Calls.{accepts, marked, unmarked, program_answer, programmed, erase_answer, erased};
ghost use Rattle.flash.specs.Laws.{then_read, then_filled, SameButPage, OnceErased};
ghost use Rattle.flash.specs.Meaning.{Proper};
ghost use Rattle.flash.specs.Told.{read_told};

use crate::device::{Device, Mark, Refusal};
use crate::numbers::{Block, PageOffset};

// Programs a page and reads it back: the answer is the mark and the buffer then holds the bytes that were programmed.
pub fn program_and_read<D: Device>(
    device: &mut D,
    block: Block,
    page: PageOffset,
    mark: Mark,
    bytes: &[u8],
    buffer: &mut [u8],
) -> Result<Option<Mark>, Refusal>
    ensures answer { read_told result ≡ then_read (D.Device.flash device.old) (program_answer (D.Device.flash device.old) block.0 page.0 mark.sector.0 (length bytes.now)) page.0 (length buffer.old) (marked mark.sector.0 mark.stamp) }
    ensures filled { buffer.new ≡ then_filled (read_told result) bytes.now buffer.old }
    ensures after { D.Device.flash device.new ≡ programmed (D.Device.flash device.old) block.0 page.0 mark.sector.0 mark.stamp bytes.now }
    ensures proper { Proper (D.Device.flash device.old) → Proper (D.Device.flash device.new) }
    ensures others { SameButPage (D.Device.flash device.old) (D.Device.flash device.new) block.0 page.0 }
{
    device.program(block, page, mark, bytes)?;
    device.read(block, page, buffer)
}

// Erases a block and reads one of its pages back: the answer is no mark, and the buffer is then filled with 0xFF.
pub fn erase_and_read<D: Device>(
    device: &mut D,
    block: Block,
    page: PageOffset,
    buffer: &mut [u8],
) -> Result<Option<Mark>, Refusal>
    ensures answer { read_told result ≡ then_read (D.Device.flash device.old) (erase_answer (D.Device.flash device.old) block.0) page.0 (length buffer.old) unmarked }
    ensures filled { buffer.new ≡ then_filled (read_told result) (replicate 512 0xFF) buffer.old }
    ensures after { D.Device.flash device.new ≡ erased (D.Device.flash device.old) block.0 }
    ensures proper { Proper (D.Device.flash device.old) → Proper (D.Device.flash device.new) }
    ensures others { accepts (erase_answer (D.Device.flash device.old) block.0) ≡ true → OnceErased (D.Device.flash device.old) (D.Device.flash device.new) block.0 }
{
    device.erase(block)?;
    device.read(block, page, buffer)
}
