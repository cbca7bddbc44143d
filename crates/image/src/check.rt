// The check of a chip image. It reads nine numbers and the length, however large the image is: it never walks the items.

ghost use Rattle.std.specs.Prelude.{◌≡◌};
ghost use Rattle.image.specs.Format.{checked_in, checked};
ghost use Rattle.image.specs.Law.{CheckLaw};
ghost use Rattle.image.specs.Told.{check_told};

use crate::fault::{ImageFault, Section};
use crate::read::{read_end, read_section, read_shape};
use crate::shape::{Geometry, PAGE_SIZE};
use crate::source::Source;

// The geometry that a source states, or its first fault. Section by section: count present, count right, items present; in the first section
// then blocks, pages and life in range; at last, nothing after the fifth.
#[tactic(auto, unfolding(crate::specs::Format::checked_in))]
pub fn check_source<S: Source>(source: &S) -> Result<Geometry, ImageFault>
    ensures { check_told result ≡ checked_in (S.Source.words source.now) }
{
    let geometry = read_shape(source)?;
    let blocks = geometry.blocks;
    let all = blocks * geometry.pages;
    let sectors = read_section(
        source,
        Section::EraseCounts,
        16,
        blocks,
        4 * blocks as usize,
    )?;
    let stamps = read_section(
        source,
        Section::SectorNumbers,
        sectors,
        all,
        4 * all as usize,
    )?;
    let contents = read_section(source, Section::Stamps, stamps, all, 4 * all as usize)?;
    let end = read_section(
        source,
        Section::Contents,
        contents,
        all,
        PAGE_SIZE * all as usize,
    )?;
    read_end(source, end)?;
    Ok(geometry)
}

// The check of bytes: the chip whose image they are, or why they are none.
pub fn check(bytes: &[u8]) -> Result<Geometry, ImageFault>
    ensures answer { check_told result ≡ checked bytes.now }
    ensures law { CheckLaw bytes.now (check_told result) }
{
    let source = bytes;
    check_source(&source)
}
