// What the program `look` says of an input: one line of text for any bytes.

ghost use Rattle.std.specs.Prelude.{◌≡◌, ◌+◌, ◌*◌, ◌≤◌, length, Some, sum};
ghost use Rattle.image.specs.Format.{words_from};
ghost use Rattle.image.specs.Report.{look_line, report_line, ReportLaw};

use crate::check::check;
use crate::fault::ImageFault;
use crate::shape::Geometry;
use std::fmt;

// The longest input that is looked at. That command lines have the same limit is a rule of its own, of another program.
pub const MOST_BYTES: usize = 65_536;

#[derive(Clone, Copy, PartialEq, Eq, Debug)]
pub enum Report {
    // a chip image: its geometry, and all its erase counts added up
    Accepted { geometry: Geometry, erases: u64 },
    // no chip image
    Refused(ImageFault),
    // more than `MOST_BYTES`
    TooLong,
}

impl fmt::Display for Report {
    ghost output = { λ r. Some (report_line r) };

    fn fmt<W: fmt::Write>(&self, f: &mut fmt::Formatter<W>) -> fmt::Result {
        match *self {
            Report::Accepted { geometry, erases } => {
                let Geometry {
                    blocks,
                    pages,
                    life,
                } = geometry;
                write!(
                    f,
                    "blocks {blocks} pages {pages} life {life} erases {erases}"
                )
            }
            Report::Refused(fault) => write!(
                f,
                "refused {} section {} byte {}",
                fault.number(),
                fault.section(),
                fault.byte()
            ),
            Report::TooLong => write!(f, "too long"),
        }
    }
}

// The sum of the erase counts, which stand from byte 20 on.
fn erase_total(bytes: &[u8], blocks: u32) -> u64
    requires few { blocks ≤ 4096 }
    requires within { 20 + 4 * blocks ≤ length bytes.now }
    ensures { result ≡ sum (words_from bytes.now 20 blocks) }
{
    // a `for`: as a chain with `sum` it was tried, and that the sum fits, which follows from how many counts there are, did not close
    let (counts, _) = bytes[20..20 + 4 * blocks as usize].as_chunks();
    let mut total = 0;
    for count in counts {
        total += u64::from(u32::from_le_bytes(*count));
    }
    total
}

// What there is to say of these bytes.
pub fn look(bytes: &[u8]) -> Report
    ensures line { report_line result ≡ look_line bytes.now }
    ensures law { ReportLaw bytes.now (report_line result) }
{
    if bytes.len() > MOST_BYTES {
        return Report::TooLong;
    }
    match check(bytes) {
        Ok(geometry) => Report::Accepted {
            geometry,
            erases: erase_total(bytes, geometry.blocks),
        },
        Err(fault) => Report::Refused(fault),
    }
}
