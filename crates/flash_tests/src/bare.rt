// A device with any number of blocks that holds nothing: its blocks have no pages and no life. No image has more than 4,096 blocks, so the
// edge of a join at 65,536 is tried with it.

ghost use Rattle.std.specs.Prelude.{◌≡◌, ◌<◌, ◌≤◌, MatchResult};
ghost use Rattle.flash.specs.declared.device.Refusal.TheVariants.{NoSuchBlock};
ghost use Rattle.flash_tests.specs.BareFlash.{bare_flash};

use flash::device::{Device, Mark, Refusal};
use flash::numbers::{Block, PageOffset};

#[derive(Clone, Copy)]
pub struct Bare(pub u32);

impl Bare {
    // That there is such a block.
    fn shown(&self, block: Block) -> Result<(), Refusal>
        ensures { MatchResult result (λ _. block.0 < self.now.0) (λ e. (self.now.0 ≤ block.0) × (e ≡ NoSuchBlock)) }
    {
        if block.0 >= self.0 {
            return Err(Refusal::NoSuchBlock);
        }
        Ok(())
    }
}

impl Device for Bare {
    ghost flash = { λ d. bare_flash d.0 };

    fn blocks(&self) -> u32 {
        self.0
    }

    fn pages(&self) -> u32 {
        0
    }

    fn life(&self) -> u32 {
        0
    }

    fn read(
        &self,
        block: Block,
        _page: PageOffset,
        _buffer: &mut [u8],
    ) -> Result<Option<Mark>, Refusal> {
        self.shown(block)?;
        Err(Refusal::NoSuchPage)
    }

    fn program(
        &mut self,
        block: Block,
        _page: PageOffset,
        _mark: Mark,
        _bytes: &[u8],
    ) -> Result<(), Refusal> {
        self.shown(block)?;
        Err(Refusal::NoSuchPage)
    }

    fn erase(&mut self, block: Block) -> Result<(), Refusal> {
        self.shown(block)?;
        Err(Refusal::BlockWornOut)
    }

    fn count(&self, block: Block) -> Result<u32, Refusal> {
        self.shown(block)?;
        Ok(0)
    }
}
