// The lines of an input, one after the other. A line ends at byte 10 or at the end of the input; an empty end is no line.

ghost use Rattle.std.specs.Iterator.{YieldsFirstBy, item_count};
ghost use Rattle.console.specs.Lines.{lines};

use crate::scan::split_once;

// An iterator of its own: `split_inclusive` takes a closure, and over that no invariant can be stated in a generic function.
#[derive(Drop)]
pub(crate) struct Lines<'a>(pub(crate) &'a [u8]);

impl<'a> Iterator for Lines<'a> {
    type Item = &'a [u8];

    ghost next_gives = { YieldsFirstBy (λ x. x.now) (λ s. lines s.0.now) };

    ghost remaining = { item_count (λ s. lines s.0.now) };

    fn next(&mut self) -> Option<&'a [u8]> {
        if self.0.is_empty() {
            return None;
        }
        let (line, rest) = split_once(self.0, b'\n').unwrap_or((self.0, b""));
        self.0 = rest;
        Some(line)
    }
}
