// Why a layer refuses a read or a write. Where two reasons apply, the one that stands first here is given.

ghost use Rattle.std.specs.Prelude.{◌≡◌, Some};
ghost use Rattle.fast.specs.Told.{refusal_number, refusal_text, Addressed};

use flash::device::SECTOR_SIZE;
use flash::numbers::Sector;
use std::error::Error;
use std::fmt;

#[derive(Clone, Copy, PartialEq, Eq, Debug)]
pub enum Refusal {
    NoSuchSector = 13,
    BufferNotASector = 3,
    BlocksWornOut = 12,
    StampsUsedUp = 14,
}

impl Refusal {
    pub fn number(self) -> u32
        ensures { result ≡ refusal_number self }
    {
        self as u32
    }
}

// What every read and write of a sector is checked for first: that there is such a sector, and that the buffer is as long as one.
pub fn addressed(sector: Sector, sectors: u32, len: usize) -> Result<(), Refusal>
    ensures { Addressed sector.0 sectors len result }
{
    if sector.0 >= sectors {
        return Err(Refusal::NoSuchSector);
    }
    if len != SECTOR_SIZE {
        return Err(Refusal::BufferNotASector);
    }
    Ok(())
}

impl fmt::Display for Refusal {
    ghost output = { λ x. Some (refusal_text x) };

    fn fmt<W: fmt::Write>(&self, f: &mut fmt::Formatter<W>) -> fmt::Result {
        match *self {
            Refusal::NoSuchSector => write!(f, "no such sector"),
            Refusal::BufferNotASector => write!(f, "the buffer is not 512 bytes long"),
            Refusal::BlocksWornOut => write!(f, "the blocks are worn out"),
            Refusal::StampsUsedUp => write!(f, "the stamps are used up"),
        }
    }
}

impl Error for Refusal {}
