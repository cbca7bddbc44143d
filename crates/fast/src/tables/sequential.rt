// The sequential log block, which takes the overwrites of one logical block from offset 0 on, as long as they come in order.

ghost use Rattle.std.specs.Prelude.{◌≡◌, ◌+◌, ◌^◌, ◌<◌, ◌&&◌, ◌==◌, nat_lt};

use crate::numbers::LogicalBlock;
use flash::numbers::{Block, PageOffset};

// The pages below the fill hold the owner's offsets below the fill.
#[derive(Clone, Copy, PartialEq, Eq, Debug)]
pub(crate) struct Sw {
    pub owner: LogicalBlock,
    pub block: Block,
    pub fill: u32,
}

impl Sw {
    // Whether it holds an offset of a logical block.
    pub(crate) fn has(self, c: LogicalBlock, o: PageOffset) -> bool
        ensures { result ≡ (self.owner.0 == c.0) && nat_lt o.0 self.fill }
    {
        self.owner == c && o.0 < self.fill
    }

    // One more page is filled.
    pub(crate) fn extend(&mut self)
        requires { self.old.fill < 2 ^ 31 }
        ensures owner { self.new.owner ≡ self.old.owner }
        ensures block { self.new.block ≡ self.old.block }
        ensures fill { self.new.fill ≡ self.old.fill + 1 }
    {
        self.fill += 1;
    }
}
