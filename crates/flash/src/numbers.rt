// The numbers of flash and sectors, each a type of its own: a block number, a page offset and a sector number are all 32 bits wide, and
// one passed for another would read or overwrite the wrong page without any refusal. Each prints as the number alone; the three impls are
// written out, since a type of one shape for all would make them one type again, and an impl by a macro of our own is refused.

ghost use Rattle.std.specs.Prelude.{Some, decimal};

use std::fmt;

// The number of a physical block of a device.
#[derive(Clone, Copy, PartialEq, Eq, Debug)]
pub struct Block(pub u32);

impl fmt::Display for Block {
    ghost output = { λ b. Some (decimal b.0) };

    fn fmt<W: fmt::Write>(&self, f: &mut fmt::Formatter<W>) -> fmt::Result {
        let Block(number) = self;
        number.fmt(f)
    }
}

// The place of a page in its block.
#[derive(Clone, Copy, PartialEq, Eq, Debug)]
pub struct PageOffset(pub u32);

impl fmt::Display for PageOffset {
    ghost output = { λ p. Some (decimal p.0) };

    fn fmt<W: fmt::Write>(&self, f: &mut fmt::Formatter<W>) -> fmt::Result {
        let PageOffset(number) = self;
        number.fmt(f)
    }
}

// The number of a sector, as the host counts them.
#[derive(Clone, Copy, PartialEq, Eq, Debug)]
pub struct Sector(pub u32);

impl fmt::Display for Sector {
    ghost output = { λ s. Some (decimal s.0) };

    fn fmt<W: fmt::Write>(&self, f: &mut fmt::Formatter<W>) -> fmt::Result {
        let Sector(number) = self;
        number.fmt(f)
    }
}
