// Two devices as one, the blocks of the first before those of the second.
//
// The join promises no more than either side keeps: it has the smaller number of pages a block and the smaller life of the two, and refuses
// itself what only one side would take. A side without blocks has no say in that: the join is then the other side. However many blocks the
// sides have, no more than 65,536 are shown. Erasing clears the whole block of the side, pages that the join hides too.

ghost use Rattle.std.specs.Prelude.{◌≡◌, ℕ, ◌<◌, ◌≤◌, length, Ok, MatchResult};
ghost use Rattle.flash.specs.Calls.{refused, read_answer, program_answer, programmed, erase_answer, erased};
ghost use Rattle.flash.specs.Joined.{Lies, shared, joined_pages, joined, first_programmed, second_programmed, first_erased, second_erased};
ghost use Rattle.flash.specs.Laws.{Rejoins};
ghost use Rattle.flash.specs.Meaning.{Proper};
ghost use Rattle.flash.specs.Told.{refusal_number, done_told};

use crate::device::{Device, Mark, Refusal};
use crate::numbers::{Block, PageOffset};

// The most blocks that a join shows.
const MOST_BLOCKS: u32 = 65_536;

#[derive(Drop)]
pub struct Join<First: Device, Second: Device> {
    pub first: First,
    pub second: Second,
}

// A block of one of the sides: `std`, on which the libraries stand alone, has no type for one of two.
#[derive(Clone, Copy)]
enum Side {
    InFirst(Block),
    InSecond(Block),
}

impl<First: Device, Second: Device> Join<First, Second> {
    // Two devices as one. With a side that has no blocks it is the other side, and two windows that split a device make that device again.
    pub fn new(first: First, second: Second) -> Join<First, Second>
        ensures made { result ≡ record { first = first; second = second } }
        ensures proper { Proper (First.Device.flash first) → Proper (Second.Device.flash second) → Proper (joined (First.Device.flash first) (Second.Device.flash second)) }
        ensures no_first { Proper (Second.Device.flash second) → (First.Device.flash first).blocks ≡ 0 → (Second.Device.flash second).blocks ≤ 65536 → joined (First.Device.flash first) (Second.Device.flash second) ≡ Second.Device.flash second }
        ensures no_second { Proper (First.Device.flash first) → (Second.Device.flash second).blocks ≡ 0 → 0 < (First.Device.flash first).blocks → (First.Device.flash first).blocks ≤ 65536 → joined (First.Device.flash first) (Second.Device.flash second) ≡ First.Device.flash first }
        ensures whole { Rejoins (First.Device.flash first) (Second.Device.flash second) }
    {
        Join { first, second }
    }

    // Which block of which side a block of the join is.
    fn side(&self, block: Block) -> Result<Side, Refusal>
        ensures { Lies (First.Device.flash self.now.first) (Second.Device.flash self.now.second) block.0 result }
    {
        let first = self.first.blocks();
        if block.0 >= self.blocks() {
            return Err(Refusal::NoSuchBlock);
        }
        if block.0 < first {
            Ok(Side::InFirst(block))
        } else {
            Ok(Side::InSecond(Block(block.0 - first)))
        }
    }

    // The same, where the join shows this page. Buffers are left to the side.
    fn side_of_page(&self, block: Block, page: PageOffset) -> Result<Side, Refusal>
        ensures { MatchResult result (λ s. Lies (First.Device.flash self.now.first) (Second.Device.flash self.now.second) block.0 (Ok s) × (page.0 < joined_pages (First.Device.flash self.now.first) (Second.Device.flash self.now.second))) (λ e. (n : ℕ) → read_answer (joined (First.Device.flash self.now.first) (Second.Device.flash self.now.second)) block.0 page.0 n ≡ refused (refusal_number e)) }
    {
        let side = self.side(block)?;
        if page.0 >= self.pages() {
            return Err(Refusal::NoSuchPage);
        }
        Ok(side)
    }

    // What the join allows where its sides allow these.
    fn allowed(&self, first: u32, second: u32) -> u32
        ensures { result ≡ shared (First.Device.flash self.now.first).blocks (Second.Device.flash self.now.second).blocks first second }
    {
        if self.first.blocks() == 0 {
            return second;
        }
        if self.second.blocks() == 0 {
            return first;
        }
        first.min(second)
    }
}

impl<First: Device, Second: Device> Device for Join<First, Second> {
    ghost flash = { λ j. joined (First.Device.flash j.first) (Second.Device.flash j.second) };

    fn blocks(&self) -> u32 {
        self.first
            .blocks()
            .saturating_add(self.second.blocks())
            .min(MOST_BLOCKS)
    }

    fn pages(&self) -> u32 {
        self.allowed(self.first.pages(), self.second.pages())
    }

    fn life(&self) -> u32 {
        self.allowed(self.first.life(), self.second.life())
    }

    fn read(
        &self,
        block: Block,
        page: PageOffset,
        buffer: &mut [u8],
    ) -> Result<Option<Mark>, Refusal> {
        match self.side_of_page(block, page)? {
            Side::InFirst(block) => self.first.read(block, page, buffer),
            Side::InSecond(block) => self.second.read(block, page, buffer),
        }
    }

    fn program(
        &mut self,
        block: Block,
        page: PageOffset,
        mark: Mark,
        bytes: &[u8],
    ) -> Result<(), Refusal>
        ensures answer { done_told result ≡ program_answer (joined (First.Device.flash self.old.first) (Second.Device.flash self.old.second)) block.0 page.0 mark.sector.0 (length bytes.now) }
        ensures after { joined (First.Device.flash self.new.first) (Second.Device.flash self.new.second) ≡ programmed (joined (First.Device.flash self.old.first) (Second.Device.flash self.old.second)) block.0 page.0 mark.sector.0 mark.stamp bytes.now }
        ensures first { First.Device.flash self.new.first ≡ first_programmed (First.Device.flash self.old.first) (Second.Device.flash self.old.second) block.0 page.0 mark.sector.0 mark.stamp bytes.now }
        ensures second { Second.Device.flash self.new.second ≡ second_programmed (First.Device.flash self.old.first) (Second.Device.flash self.old.second) block.0 page.0 mark.sector.0 mark.stamp bytes.now }
    {
        match self.side_of_page(block, page)? {
            Side::InFirst(block) => self.first.program(block, page, mark, bytes),
            Side::InSecond(block) => self.second.program(block, page, mark, bytes),
        }
    }

    fn erase(&mut self, block: Block) -> Result<(), Refusal>
        ensures answer { done_told result ≡ erase_answer (joined (First.Device.flash self.old.first) (Second.Device.flash self.old.second)) block.0 }
        ensures after { joined (First.Device.flash self.new.first) (Second.Device.flash self.new.second) ≡ erased (joined (First.Device.flash self.old.first) (Second.Device.flash self.old.second)) block.0 }
        ensures first { First.Device.flash self.new.first ≡ first_erased (First.Device.flash self.old.first) (Second.Device.flash self.old.second) block.0 }
        ensures second { Second.Device.flash self.new.second ≡ second_erased (First.Device.flash self.old.first) (Second.Device.flash self.old.second) block.0 }
    {
        if self.count(block)? >= self.life() {
            return Err(Refusal::BlockWornOut);
        }
        match self.side(block)? {
            Side::InFirst(block) => self.first.erase(block),
            Side::InSecond(block) => self.second.erase(block),
        }
    }

    fn count(&self, block: Block) -> Result<u32, Refusal> {
        match self.side(block)? {
            Side::InFirst(block) => self.first.count(block),
            Side::InSecond(block) => self.second.count(block),
        }
    }
}
