// Some blocks of a device in a row, as a device.
//
// A window shows `count` blocks from block `first` on, as many of them as the device has, and none where it begins past the device's end.
// Pages and life are the device's, also where the window shows no block.

ghost use Rattle.std.specs.Prelude.{◌≡◌, ◌+◌, ◌<◌, ◌≤◌, length};
ghost use Rattle.flash.specs.Calls.{program_answer, programmed, erase_answer, erased};
ghost use Rattle.flash.specs.Meaning.{Proper};
ghost use Rattle.flash.specs.Told.{done_told};
ghost use Rattle.flash.specs.Windowed.{Shows, windowed, below_programmed, below_erased};

use crate::device::{Device, Mark, Refusal};
use crate::numbers::{Block, PageOffset};

#[derive(Drop)]
pub struct Window<D: Device> {
    pub device: D,
    pub first: Block,
    pub count: u32,
}

impl<D: Device> Window<D> {
    // Some blocks of a device in a row, as many as there are.
    pub fn new(device: D, first: Block, count: u32) -> Window<D>
        ensures made { result ≡ record { device = device; first = first; count = count } }
        ensures proper { Proper (D.Device.flash device) → Proper (windowed (D.Device.flash device) first.0 count) }
    {
        Window {
            device,
            first,
            count,
        }
    }

    // Which block of the device a block of the window is.
    fn shown(&self, block: Block) -> Result<Block, Refusal>
        ensures { Shows (D.Device.flash self.now.device) self.now.first.0 self.now.count block.0 result }
    {
        // compared with the device's own number of blocks and not by `self.blocks()`, since its width shows that the sum below fits
        let blocks = self.device.blocks();
        if block.0 >= self.count.min(blocks.saturating_sub(self.first.0)) {
            return Err(Refusal::NoSuchBlock);
        }
        Ok(Block(self.first.0 + block.0))
    }
}

impl<D: Device> Device for Window<D> {
    ghost flash = { λ w. windowed (D.Device.flash w.device) w.first.0 w.count };

    fn blocks(&self) -> u32 {
        self.count
            .min(self.device.blocks().saturating_sub(self.first.0))
    }

    fn pages(&self) -> u32 {
        self.device.pages()
    }

    fn life(&self) -> u32 {
        self.device.life()
    }

    fn read(
        &self,
        block: Block,
        page: PageOffset,
        buffer: &mut [u8],
    ) -> Result<Option<Mark>, Refusal> {
        let shown = self.shown(block)?;
        self.device.read(shown, page, buffer)
    }

    fn program(
        &mut self,
        block: Block,
        page: PageOffset,
        mark: Mark,
        bytes: &[u8],
    ) -> Result<(), Refusal>
        ensures answer { done_told result ≡ program_answer (windowed (D.Device.flash self.old.device) self.old.first.0 self.old.count) block.0 page.0 mark.sector.0 (length bytes.now) }
        ensures after { windowed (D.Device.flash self.new.device) self.new.first.0 self.new.count ≡ programmed (windowed (D.Device.flash self.old.device) self.old.first.0 self.old.count) block.0 page.0 mark.sector.0 mark.stamp bytes.now }
        ensures below { D.Device.flash self.new.device ≡ below_programmed (D.Device.flash self.old.device) self.old.first.0 self.old.count block.0 page.0 mark.sector.0 mark.stamp bytes.now }
        ensures kept { (self.new.first ≡ self.old.first) × (self.new.count ≡ self.old.count) }
    {
        let shown = self.shown(block)?;
        self.device.program(shown, page, mark, bytes)
    }

    fn erase(&mut self, block: Block) -> Result<(), Refusal>
        ensures answer { done_told result ≡ erase_answer (windowed (D.Device.flash self.old.device) self.old.first.0 self.old.count) block.0 }
        ensures after { windowed (D.Device.flash self.new.device) self.new.first.0 self.new.count ≡ erased (windowed (D.Device.flash self.old.device) self.old.first.0 self.old.count) block.0 }
        ensures below { D.Device.flash self.new.device ≡ below_erased (D.Device.flash self.old.device) self.old.first.0 self.old.count block.0 }
        ensures kept { (self.new.first ≡ self.old.first) × (self.new.count ≡ self.old.count) }
    {
        let shown = self.shown(block)?;
        self.device.erase(shown)
    }

    fn count(&self, block: Block) -> Result<u32, Refusal> {
        let shown = self.shown(block)?;
        self.device.count(shown)
    }
}
