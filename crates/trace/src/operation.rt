// A program or an erase that a device was asked for.

ghost use Rattle.std.specs.Prelude.{Some};
ghost use Rattle.trace.specs.Recorded.{operation_line};

use flash::device::Mark;
use flash::numbers::{Block, PageOffset};
use std::fmt;

#[derive(Clone, Copy, PartialEq, Eq, Debug)]
pub enum Operation {
    Program {
        block: Block,
        page: PageOffset,
        mark: Mark,
    },
    Erase(Block),
}

impl fmt::Display for Operation {
    ghost output = { λ x. Some (operation_line x) };

    fn fmt<W: fmt::Write>(&self, f: &mut fmt::Formatter<W>) -> fmt::Result {
        match *self {
            Operation::Program { block, page, mark } => {
                let Mark { sector, stamp } = mark;
                write!(f, "program {block} {page} sector {sector} stamp {stamp}")
            }
            Operation::Erase(block) => write!(f, "erase {block}"),
        }
    }
}
