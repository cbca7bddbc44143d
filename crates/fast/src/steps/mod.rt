// The steps of a write, from the copy of one page up to the whole.
//
// A step takes the device by reference and the tables by value, and gives the tables back with its counts: so tables are only written
// whole, and no step can leave them half changed. One struct of both could go neither way. Each says that it leaves the device and the
// tables that the scheme's step leaves, for every device and every tables: the scheme's steps go on where the device refuses, and so do
// these. That a device refuses nothing of what is asked after format is a law of runs, and not a premise here. Beside that, `few` bounds
// the counts, by two numbers of the step's own, and `logged` keeps the lengths of the lists, for the sums and the indices of the callers.
// They are clauses of their own, since some steps owe one of them or none. What a step requires of a logical block or of the sequential
// log block is a fact about that value and the tables together, of which each changes alone, so no type of one of them can have it.

ghost use Rattle.std.specs.Prelude.{◌≡◌};

use crate::tables::Tables;
use flash::device::Mark;
use flash::numbers::PageOffset;

pub(crate) mod copies;
pub(crate) mod merges;
pub(crate) mod writes;

// The tables after a step, and the blocks erased and pages copied in it.
#[derive(Drop)]
pub(crate) struct Step {
    pub tables: Tables,
    pub erases: u32,
    pub copies: u32,
}

impl Step {
    // A step that erased and copied nothing.
    pub(crate) fn new(tables: Tables) -> Step
        ensures { result ≡ record { tables = tables; erases = 0; copies = 0 } }
    {
        Step {
            tables,
            erases: 0,
            copies: 0,
        }
    }
}

// Whether a write is the first of its sector, or goes over bytes that are there.
#[derive(Clone, Copy, PartialEq, Eq, Debug)]
pub(crate) enum WriteKind {
    First,
    Overwrite,
}

// What a page is programmed with.
#[derive(Clone, Copy, PartialEq, Eq, Debug)]
pub(crate) struct Page<'a> {
    pub mark: Mark,
    pub bytes: &'a [u8],
}

// A new page for one offset of a logical block.
#[derive(Clone, Copy, PartialEq, Eq, Debug)]
pub(crate) struct Fresh<'a> {
    pub offset: PageOffset,
    pub page: Page<'a>,
}
