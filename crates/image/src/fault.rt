// Why bytes are no chip image.
//
// A fault climbs: the number reader says what is wrong and at which byte, the section reader adds the section, and the image's check passes it
// on. Each level holds the lower fault whole, so that whoever has an image fault can tell the number, the section and the byte.

ghost use Rattle.std.specs.Prelude.{◌≡◌, Some};
ghost use Rattle.image.specs.Report.{problem_text, number_text, section_text, image_text};
ghost use Rattle.image.specs.Told.{problem_number, section_number, in_named, fault_number, fault_section, fault_byte};

use std::error::Error;
use std::fmt;

// What is wrong.
#[derive(Clone, Copy, PartialEq, Eq, Debug)]
pub enum Problem {
    // the bytes end inside a count or an item list
    EndsInside = 7,
    // a section's count is not what it has to be
    WrongCount = 8,
    // blocks, pages or life are out of range
    OutOfRange = 9,
    // bytes follow the last section
    Surplus = 10,
}

impl Problem {
    // The number by which the refusal is known.
    pub fn number(self) -> u32
        ensures { result ≡ problem_number self }
    {
        self as u32
    }

    // The fault that it is at a byte.
    pub fn at(self, byte: usize) -> NumberFault
        ensures { result ≡ record { problem = self; byte = byte } }
    {
        NumberFault {
            problem: self,
            byte,
        }
    }

    // The refusal in words.
    pub fn reason(self) -> &'static str
        ensures { result.now ≡ problem_text self }
    {
        match self {
            Problem::EndsInside => "the bytes end inside a count or an item list",
            Problem::WrongCount => "the count is wrong",
            Problem::OutOfRange => "the number is out of range",
            Problem::Surplus => "bytes follow the last section",
        }
    }
}

impl fmt::Display for Problem {
    ghost output = { λ x. Some (problem_text x) };

    fn fmt<W: fmt::Write>(&self, f: &mut fmt::Formatter<W>) -> fmt::Result {
        f.write_str(self.reason())
    }
}

// A problem, and the byte (from 0) at which the count, the number, the item list or the surplus begins.
#[derive(Clone, Copy, PartialEq, Eq, Debug)]
pub struct NumberFault {
    pub problem: Problem,
    pub byte: usize,
}

impl fmt::Display for NumberFault {
    ghost output = { λ x. Some (number_text x) };

    fn fmt<W: fmt::Write>(&self, f: &mut fmt::Formatter<W>) -> fmt::Result {
        write!(f, "byte {}: {}", self.byte, self.problem)
    }
}

// The five sections of an image, in their order.
#[derive(Clone, Copy, PartialEq, Eq, Debug)]
pub enum Section {
    Shape = 1,
    EraseCounts = 2,
    SectorNumbers = 3,
    Stamps = 4,
    Contents = 5,
}

impl Section {
    pub fn number(self) -> u32
        ensures { result ≡ section_number self }
    {
        self as u32
    }

    // What was read in this section, or its fault with the section's name.
    pub fn within<T>(self, read: Result<T, NumberFault>) -> Result<T, SectionFault>
        ensures { result ≡ in_named self read }
    {
        read.map_err(|fault| SectionFault {
            section: self,
            fault,
        })
    }
}

// A fault in a section.
#[derive(Clone, Copy, PartialEq, Eq, Debug)]
pub struct SectionFault {
    pub section: Section,
    pub fault: NumberFault,
}

impl fmt::Display for SectionFault {
    ghost output = { λ x. Some (section_text x) };

    fn fmt<W: fmt::Write>(&self, f: &mut fmt::Formatter<W>) -> fmt::Result {
        write!(f, "section {}, {}", self.section.number(), self.fault)
    }
}

// A fault of an image.
#[derive(Clone, Copy, PartialEq, Eq, Debug)]
pub struct ImageFault {
    pub fault: SectionFault,
}

impl ImageFault {
    // The number of the refusal.
    pub fn number(self) -> u32
        ensures { result ≡ fault_number self }
    {
        self.fault.fault.problem.number()
    }

    // The number of the section that the fault is in.
    pub fn section(self) -> u32
        ensures { result ≡ fault_section self }
    {
        self.fault.section.number()
    }

    // The byte at which what is wrong begins.
    pub fn byte(self) -> usize
        ensures { result ≡ fault_byte self }
    {
        self.fault.fault.byte
    }
}

impl From<SectionFault> for ImageFault {
    ghost from_gives = { λ f r. r.fault ≡ f };

    fn from(fault: SectionFault) -> Self {
        ImageFault { fault }
    }
}

impl fmt::Display for ImageFault {
    ghost output = { λ x. Some (image_text x) };

    fn fmt<W: fmt::Write>(&self, f: &mut fmt::Formatter<W>) -> fmt::Result {
        write!(f, "no chip image: {}", self.fault)
    }
}

impl Error for ImageFault {}
