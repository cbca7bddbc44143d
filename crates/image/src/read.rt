// The readers below the check of an image: one number, one section, the first section, the end.

#![tactic(auto, unfolding(crate::specs::Format::number_at, crate::specs::Format::ranged_at, crate::specs::Format::section_at, crate::specs::Format::end_at, crate::specs::Format::shape_at))]

ghost use Rattle.std.specs.Prelude.{◌≡◌, ℕ, ◌+◌, ◌≤◌, IfOk, OnOk};
ghost use Rattle.image.specs.Format.{number_at, ranged_at, section_at, end_at, shape_at, within};
ghost use Rattle.image.specs.Told.{number_told, section_told, shape_told, section_number};

use crate::fault::{NumberFault, Problem, Section, SectionFault};
use crate::shape::{Geometry, MOST_BLOCKS, MOST_LIFE, MOST_PAGES};
use crate::source::Source;

// The number at a byte.
fn read_number<S: Source>(source: &S, at: usize) -> Result<u32, NumberFault>
    ensures value { number_told result ≡ number_at (S.Source.words source.now) at }
    ensures bound { OnOk result (at + 4 ≤ (S.Source.words source.now).size) }
{
    source.number(at).ok_or(Problem::EndsInside.at(at))
}

// A number of the first section, from 1 to `most`.
fn read_ranged<S: Source>(source: &S, at: usize, most: u32) -> Result<u32, SectionFault>
    ensures value { section_told result ≡ within 1 (ranged_at (S.Source.words source.now) at most) }
    ensures bound { IfOk result (λ n. n ≤ most) }
{
    let n = Section::Shape.within(read_number(source, at))?;
    if !(1..=most).contains(&n) {
        return Section::Shape.within(Err(Problem::OutOfRange.at(at)));
    }
    Ok(n)
}

// The end of the section that begins at `at`, with this count and this many bytes of items.
pub(crate) fn read_section<S: Source>(
    source: &S,
    section: Section,
    at: usize,
    count: u32,
    size: usize,
) -> Result<usize, SectionFault>
    ensures value { section_told result ≡ within (section_number section) (section_at (S.Source.words source.now) at count size) }
    ensures bound { IfOk result (λ e. e ≤ (S.Source.words source.now).size) }
{
    let n = section.within(read_number(source, at))?;
    if n != count {
        return section.within(Err(Problem::WrongCount.at(at)));
    }
    if source.size() - (at + 4) < size {
        return section.within(Err(Problem::EndsInside.at(at + 4)));
    }
    Ok(at + 4 + size)
}

// The first section: blocks, pages and life, each in range.
pub(crate) fn read_shape<S: Source>(source: &S) -> Result<Geometry, SectionFault>
    ensures value { shape_told result ≡ shape_at (S.Source.words source.now) }
    ensures bound { IfOk result (λ g. (g.blocks ≤ 4096) × (g.pages ≤ 64)) }
{
    read_section(source, Section::Shape, 0, 3, 12)?;
    let blocks = read_ranged(source, 4, MOST_BLOCKS)?;
    let pages = read_ranged(source, 8, MOST_PAGES)?;
    let life = read_ranged(source, 12, MOST_LIFE)?;
    Ok(Geometry {
        blocks,
        pages,
        life,
    })
}

// That the bytes end at `at`, where the last section does.
pub(crate) fn read_end<S: Source>(source: &S, at: usize) -> Result<usize, SectionFault>
    ensures { section_told result ≡ within 5 (end_at (S.Source.words source.now) at) }
{
    if at < source.size() {
        return Section::Contents.within(Err(Problem::Surplus.at(at)));
    }
    Ok(at)
}
