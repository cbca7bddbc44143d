// A command line: `w N TEXT` writes a text to sector N, `r N` reads sector N.
//
// N has one to ten digits and fits 32 bits. TEXT is what follows the space after N, up to the end of the line: at most 512 bytes of any kind,
// perhaps none, but the space has to be there. A line that is spelt in any other way is not understood.

ghost use Rattle.std.specs.Prelude.{◌≡◌, ◌≤◌, length};
ghost use Rattle.console.specs.Commands.{number_of, said, said_write, Spelling};
ghost use Rattle.console.specs.Told.{command_told};

use crate::scan::split_once;
use flash::device::SECTOR_SIZE;
use flash::numbers::Sector;

// The longest numeral: as long as that of the largest number of 32 bits.
const MOST_DIGITS: usize = 10;

// The text is a part of the line.
#[derive(Clone, Copy)]
pub enum Command<'a> {
    Write { sector: Sector, text: &'a [u8] },
    Read { sector: Sector },
}

// The number that these bytes spell.
fn parse_number(digits: &[u8]) -> Option<u32>
    ensures { result ≡ number_of digits.now }
{
    if digits.is_empty() || digits.len() > MOST_DIGITS {
        return None;
    }
    let mut value = 0u32;
    // a `for` with `?`, since the contract says when there is no number; a `try_fold` would hold the same body in a closure, no plainer
    for digit in digits {
        if !digit.is_ascii_digit() {
            return None;
        }
        value = value
            .checked_mul(10)?
            .checked_add(u32::from(*digit - b'0'))?;
    }
    Some(value)
}

fn parse_write<'a>(rest: &'a [u8]) -> Option<Command<'a>>
    ensures { command_told result ≡ said_write rest.now }
{
    let (digits, text) = split_once(rest, b' ')?;
    let sector = Sector(parse_number(digits)?);
    if text.len() > SECTOR_SIZE {
        return None;
    }
    Some(Command::Write { sector, text })
}

impl<'a> Command<'a> {
    // The command that a line gives, if it is understood.
    pub fn parse(line: &'a [u8]) -> Option<Command<'a>>
        ensures command { command_told result ≡ said line.now }
        ensures law { Spelling line.now (command_told result) }
    {
        match line {
            [b'r', b' ', rest @ ..] => {
                let sector = Sector(parse_number(rest)?);
                Some(Command::Read { sector })
            }
            [b'w', b' ', rest @ ..] => parse_write(rest),
            _ => None,
        }
    }
}
