// A NAND flash device: what its calls take, what they answer, and what they mean.
//
// A device is B blocks of P pages with a life, an erase count for each block and a state for each page. A page is blank, or holds a mark (a
// sector number and a stamp) and 512 bytes. A page is programmed only while it is blank, and becomes blank only when its whole block is
// erased. Everything above this file knows a device by the trait's ghost member `flash` alone.

ghost use Rattle.std.specs.Prelude.{◌≡◌, length, Some};
ghost use Rattle.flash.specs.Calls.{read_answer, read_buffer, program_answer, programmed, erase_answer, erased, count_answer};
ghost use Rattle.flash.specs.Meaning.{Flash};
ghost use Rattle.flash.specs.Told.{refusal_number, refusal_text, read_told, done_told, count_told};

use crate::numbers::{Block, PageOffset, Sector};
use image::shape::PAGE_SIZE;
use std::error::Error;
use std::fmt;

// The bytes of a page, which are those of a sector.
pub const SECTOR_SIZE: usize = PAGE_SIZE;

// The sector number that no page can be programmed with: the image's own mark of a blank page, of which `read` makes `None`.
pub const NO_SECTOR: u32 = 0xFFFF_FFFF;

// What a page that is not blank is marked with.
#[derive(Clone, Copy, PartialEq, Eq, Debug)]
pub struct Mark {
    pub sector: Sector,
    pub stamp: u32,
}

// Why a device refuses a call. Where two reasons apply, the one that stands first here is given.
#[derive(Clone, Copy, PartialEq, Eq, Debug)]
pub enum Refusal {
    NoSuchBlock = 1,
    NoSuchPage = 2,
    BufferNotASector = 3,
    SectorNumberReserved = 4,
    PageNotBlank = 5,
    BlockWornOut = 6,
}

impl Refusal {
    pub fn number(self) -> u32
        ensures { result ≡ refusal_number self }
    {
        self as u32
    }

    // The refusal in words.
    pub fn reason(self) -> &'static str
        ensures { result.now ≡ refusal_text self }
    {
        match self {
            Refusal::NoSuchBlock => "no such block",
            Refusal::NoSuchPage => "no such page",
            Refusal::BufferNotASector => "the buffer is not 512 bytes long",
            Refusal::SectorNumberReserved => "the sector number is reserved",
            Refusal::PageNotBlank => "the page is not blank",
            Refusal::BlockWornOut => "the block is worn out",
        }
    }
}

impl fmt::Display for Refusal {
    ghost output = { λ x. Some (refusal_text x) };

    fn fmt<W: fmt::Write>(&self, f: &mut fmt::Formatter<W>) -> fmt::Result {
        f.write_str(self.reason())
    }
}

impl Error for Refusal {}

// A block and a page are two arguments and no struct: an erase and a count take the block alone, and a caller has the two from different
// places.
//
// Each call answers as `Calls` says of the device's meaning, refusals too, and leaves the meaning and the buffer that it says. That the meaning
// is `Proper` is no law here, since it would ask more of whoever implements a device: clauses that need it take it as their premise.
pub trait Device {
    // What the device means.
    ghost flash: { Self → Flash };

    // How many blocks there are.
    fn blocks(&self) -> u32
        ensures { result ≡ (flash self.now).blocks };

    // How many pages each block has.
    fn pages(&self) -> u32
        ensures { result ≡ (flash self.now).pages };

    // How many erases each block takes.
    fn life(&self) -> u32
        ensures { result ≡ (flash self.now).life };

    // A page's mark, and its bytes in the buffer; of a blank page no mark, and the buffer filled with 0xFF.
    fn read(
        &self,
        block: Block,
        page: PageOffset,
        buffer: &mut [u8],
    ) -> Result<Option<Mark>, Refusal>
        ensures answer { read_told result ≡ read_answer (flash self.now) block.0 page.0 (length buffer.old) }
        ensures filled { buffer.new ≡ read_buffer (flash self.now) block.0 page.0 buffer.old };

    // Gives a blank page a mark and bytes.
    fn program(
        &mut self,
        block: Block,
        page: PageOffset,
        mark: Mark,
        bytes: &[u8],
    ) -> Result<(), Refusal>
        ensures answer { done_told result ≡ program_answer (flash self.old) block.0 page.0 mark.sector.0 (length bytes.now) }
        ensures after { flash self.new ≡ programmed (flash self.old) block.0 page.0 mark.sector.0 mark.stamp bytes.now };

    // Makes all pages of a block blank, and adds 1 to its count.
    fn erase(&mut self, block: Block) -> Result<(), Refusal>
        ensures answer { done_told result ≡ erase_answer (flash self.old) block.0 }
        ensures after { flash self.new ≡ erased (flash self.old) block.0 };

    // A block's erase count.
    fn count(&self, block: Block) -> Result<u32, Refusal>
        ensures { count_told result ≡ count_answer (flash self.now) block.0 };
}
