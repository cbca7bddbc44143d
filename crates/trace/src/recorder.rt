// A device over any device, which writes down the first 80 programs and erases that it is asked for, refused ones too, and is otherwise
// the device below. It shows in which order a layer works.

ghost use Rattle.std.specs.Prelude.{◌≡◌, length};
ghost use Rattle.flash.specs.Calls.{program_answer, programmed, erase_answer, erased};
ghost use Rattle.flash.specs.Told.{done_told};
ghost use Rattle.trace.specs.declared.operation.Operation.TheVariants.{Program, Erase};
ghost use Rattle.trace.specs.Recorded.{noted};

use crate::log::Log;
use crate::operation::Operation;
use flash::device::{Device, Mark, Refusal};
use flash::numbers::{Block, PageOffset};

#[derive(Drop)]
pub struct Recorder<D: Device> {
    device: D,
    log: Log,
}

impl<D: Device> Recorder<D> {
    pub(crate) fn new(device: D, log: Log) -> Recorder<D>
        ensures device { result.device ≡ device }
        ensures log { result.log ≡ log }
    {
        Recorder { device, log }
    }

    // What was written down so far.
    pub(crate) fn operations(&self) -> &[Operation]
        ensures { result.now ≡ self.now.log.operations.items }
    {
        self.log.operations.as_slice()
    }
}

impl<D: Device> Device for Recorder<D> {
    ghost flash = { λ r. D.Device.flash r.device };

    fn blocks(&self) -> u32 {
        self.device.blocks()
    }

    fn pages(&self) -> u32 {
        self.device.pages()
    }

    fn life(&self) -> u32 {
        self.device.life()
    }

    fn read(
        &self,
        block: Block,
        page: PageOffset,
        buffer: &mut [u8],
    ) -> Result<Option<Mark>, Refusal> {
        self.device.read(block, page, buffer)
    }

    fn program(
        &mut self,
        block: Block,
        page: PageOffset,
        mark: Mark,
        bytes: &[u8],
    ) -> Result<(), Refusal>
        ensures answer { done_told result ≡ program_answer (D.Device.flash self.old.device) block.0 page.0 mark.sector.0 (length bytes.now) }
        ensures after { D.Device.flash self.new.device ≡ programmed (D.Device.flash self.old.device) block.0 page.0 mark.sector.0 mark.stamp bytes.now }
        ensures noted { self.new.log.operations.items ≡ noted self.old.log.operations.items (Program block page mark) }
    {
        self.log.note(Operation::Program { block, page, mark });
        self.device.program(block, page, mark, bytes)
    }

    fn erase(&mut self, block: Block) -> Result<(), Refusal>
        ensures answer { done_told result ≡ erase_answer (D.Device.flash self.old.device) block.0 }
        ensures after { D.Device.flash self.new.device ≡ erased (D.Device.flash self.old.device) block.0 }
        ensures noted { self.new.log.operations.items ≡ noted self.old.log.operations.items (Erase block) }
    {
        self.log.note(Operation::Erase(block));
        self.device.erase(block)
    }

    fn count(&self, block: Block) -> Result<u32, Refusal> {
        self.device.count(block)
    }
}
