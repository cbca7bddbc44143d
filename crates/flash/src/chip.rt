// A device in the caller's bytes, which are the image of a chip.
//
// The check of the bytes runs once, when the chip is made; from then on the chip keeps what it said, and each call touches no more than the page
// or the block that it is about. What a call leaves is an image of the same geometry again, so the bytes can be saved at any time and opened
// later. Bytes that the check refuses make a chip without blocks, pages and life.

ghost use Rattle.std.specs.Prelude.{◌≡◌, ◌+◌, ◌*◌, ◌^◌, ◌<◌, ◌≤◌, List, [], ◌∷◌, length, replicate, if◌then◌else◌, MatchResult};
ghost use Rattle.std.specs.Coded.{Coded-set};
ghost use Rattle.flash.specs.Calls.{accepts, read_answer, refused, program_answer, programmed, erase_answer, erased};
ghost use Rattle.flash.specs.declared.device.Refusal.TheVariants.{NoSuchBlock};
ghost use Rattle.flash.specs.Meaning.{Proper};
ghost use Rattle.flash.specs.Patched.{all_patched};
ghost use Rattle.flash.specs.Stored.{Fits, geometry_by, image_flash, chip_flash, chip_programmed, chip_erased, StaysImage};
ghost use Rattle.flash.specs.Told.{refusal_number, done_told};
ghost use Rattle.image.specs.Format.{word, word_bytes, checked, count_place, sector_place, stamp_place, bytes_place};

use crate::device::{Device, Mark, NO_SECTOR, Refusal, SECTOR_SIZE};
use crate::numbers::{Block, PageOffset, Sector};
use crate::patch::{put_bytes, put_number, put_run};
use image::check::check;
use image::shape::Geometry;
use image::source::Source;

// The geometry is what the check says of the bytes, now as when the chip was made.
#[derive(Drop)]
pub struct ImageChip<'a> {
    bytes: &'a mut [u8],
    geometry: Option<Geometry>,
    ghost image: { geometry ≡ geometry_by (checked bytes.now) } by { Coded-set geometry-code geometry (geometry_by (checked bytes.now)) },
}

// Where a block's erase count lies in an image.
fn count_at(block: Block) -> usize
    ensures { result ≡ count_place block.0 }
{
    20 + 4 * block.0 as usize
}

// Where the parts of a page, or of some pages from it on, lie in an image.
#[derive(Clone, Copy)]
struct Places {
    sector: usize,
    stamp: usize,
    bytes: usize,
}

// The places of a page.
fn page_places(geometry: Geometry, block: Block, page: PageOffset) -> Places
    requires there { (block.0 < geometry.blocks) × (page.0 < geometry.pages) }
    requires few { (geometry.blocks ≤ 4096) × (geometry.pages ≤ 64) }
    ensures sector { result.sector ≡ sector_place geometry.blocks (block.0 * geometry.pages + page.0) }
    ensures stamp { result.stamp ≡ stamp_place geometry.blocks geometry.pages (block.0 * geometry.pages + page.0) }
    ensures bytes { result.bytes ≡ bytes_place geometry.blocks geometry.pages (block.0 * geometry.pages + page.0) }
{
    let counts = 4 * geometry.blocks as usize;
    let all = geometry.blocks as usize * geometry.pages as usize;
    let index = block.0 as usize * geometry.pages as usize + page.0 as usize;
    Places {
        sector: 24 + counts + 4 * index,
        stamp: 28 + counts + 4 * all + 4 * index,
        bytes: 32 + counts + 8 * all + SECTOR_SIZE * index,
    }
}

// A page's mark and bytes, each at its place.
fn put_page(bytes: &mut [u8], at: Places, mark: Mark, part: &[u8])
    requires sector { at.sector + 4 ≤ length bytes.old }
    requires stamp { at.stamp + 4 ≤ length bytes.old }
    requires part { at.bytes + length part.now ≤ length bytes.old }
    ensures after { bytes.new ≡ all_patched bytes.old ((at.sector, word_bytes mark.sector.0) ∷ (at.stamp, word_bytes mark.stamp) ∷ (at.bytes, part.now) ∷ []) }
    ensures fits { (mark.sector.0 < 2 ^ 32) × (mark.stamp < 2 ^ 32) }
{
    put_number(bytes, at.sector, mark.sector.0);
    put_number(bytes, at.stamp, mark.stamp);
    put_bytes(bytes, at.bytes, part);
}

// A block's erase count, and all bits of the marks and bytes of its pages.
fn put_erased(bytes: &mut [u8], count_at: usize, count: u32, at: Places, pages: usize)
    requires few { pages ≤ 64 }
    requires count { count_at + 4 ≤ length bytes.old }
    requires sector { at.sector + 4 * pages ≤ length bytes.old }
    requires stamp { at.stamp + 4 * pages ≤ length bytes.old }
    requires part { at.bytes + 512 * pages ≤ length bytes.old }
    ensures { bytes.new ≡ all_patched bytes.old ((count_at, word_bytes count) ∷ (at.sector, replicate (4 * pages) 0xFF) ∷ (at.stamp, replicate (4 * pages) 0xFF) ∷ (at.bytes, replicate (512 * pages) 0xFF) ∷ []) }
{
    put_number(bytes, count_at, count);
    put_run(bytes, at.sector, 4 * pages, 0xFF);
    put_run(bytes, at.stamp, 4 * pages, 0xFF);
    put_run(bytes, at.bytes, SECTOR_SIZE * pages, 0xFF);
}

impl<'a> ImageChip<'a> {
    // The chip whose image these bytes are; one without blocks where they are none.
    #[tactic(auto, using(crate::proofs::Chips::means, crate::proofs::Chips::chip_proper))]
    pub fn new(bytes: &'a mut [u8]) -> ImageChip<'a>
        ensures bytes { result.bytes.now ≡ bytes.old }
        ensures geometry { result.geometry ≡ geometry_by (checked bytes.old) }
        ensures means { chip_flash result.bytes.now result.geometry ≡ image_flash bytes.old }
        ensures proper { Proper (chip_flash result.bytes.now result.geometry) }
    {
        let geometry = check(bytes).ok();
        ImageChip { bytes, geometry }
    }

    // The image, as the calls so far have left it.
    pub fn bytes(&self) -> &[u8]
        ensures { result.now ≡ self.now.bytes.now }
    {
        self.bytes
    }

    // The geometry, where the chip has this block.
    fn geometry_with(&self, block: Block) -> Result<Geometry, Refusal>
        ensures { MatchResult result (λ g. (self.now.geometry ≡ Some g) × Fits (length self.now.bytes.now) g × (block.0 < g.blocks)) (λ e. ((chip_flash self.now.bytes.now self.now.geometry).blocks ≤ block.0) × (e ≡ NoSuchBlock)) }
    {
        let geometry = self.geometry.ok_or(Refusal::NoSuchBlock)?;
        if block.0 >= geometry.blocks {
            return Err(Refusal::NoSuchBlock);
        }
        Ok(geometry)
    }

    // The geometry, where the chip has this page and a buffer of so many bytes can take one.
    fn geometry_for(&self, block: Block, page: PageOffset, len: usize) -> Result<Geometry, Refusal>
        ensures { MatchResult result (λ g. (self.now.geometry ≡ Some g) × Fits (length self.now.bytes.now) g × (block.0 < g.blocks) × (page.0 < g.pages) × (len ≡ 512)) (λ e. read_answer (chip_flash self.now.bytes.now self.now.geometry) block.0 page.0 len ≡ refused (refusal_number e)) }
    {
        let geometry = self.geometry_with(block)?;
        if page.0 >= geometry.pages {
            return Err(Refusal::NoSuchPage);
        }
        if len != SECTOR_SIZE {
            return Err(Refusal::BufferNotASector);
        }
        Ok(geometry)
    }

    fn number(&self, at: usize) -> u32
        requires { at + 4 ≤ length self.now.bytes.now }
        ensures { result ≡ word self.now.bytes.now at }
    {
        let bytes: &[u8] = self.bytes;
        bytes.number(at).unwrap()
    }
}

impl<'a> Device for ImageChip<'a> {
    ghost flash = { λ i. chip_flash i.bytes.now i.geometry };

    fn blocks(&self) -> u32 {
        self.geometry.map_or(0, |geometry| geometry.blocks)
    }

    fn pages(&self) -> u32 {
        self.geometry.map_or(0, |geometry| geometry.pages)
    }

    fn life(&self) -> u32 {
        self.geometry.map_or(0, |geometry| geometry.life)
    }

    fn read(
        &self,
        block: Block,
        page: PageOffset,
        buffer: &mut [u8],
    ) -> Result<Option<Mark>, Refusal> {
        let geometry = self.geometry_for(block, page, buffer.len())?;
        let at = page_places(geometry, block, page);
        let sector = self.number(at.sector);
        if sector == NO_SECTOR {
            buffer.fill(0xFF);
            return Ok(None);
        }
        let from = at.bytes;
        buffer.copy_from_slice(&self.bytes[from..from + SECTOR_SIZE]);
        let stamp = self.number(at.stamp);
        Ok(Some(Mark {
            sector: Sector(sector),
            stamp,
        }))
    }

    #[tactic(auto, using(crate::proofs::Chips::means, crate::proofs::Chips::chip_blank, crate::proofs::Chips::chip_holds))]
    fn program(
        &mut self,
        block: Block,
        page: PageOffset,
        mark: Mark,
        bytes: &[u8],
    ) -> Result<(), Refusal>
        ensures answer { done_told result ≡ program_answer (chip_flash self.old.bytes.now self.old.geometry) block.0 page.0 mark.sector.0 (length bytes.now) }
        ensures after { chip_flash self.new.bytes.now self.new.geometry ≡ programmed (chip_flash self.old.bytes.now self.old.geometry) block.0 page.0 mark.sector.0 mark.stamp bytes.now }
        ensures bytes { self.new.bytes.now ≡ (if accepts (done_told result) then chip_programmed self.old.bytes.now self.old.geometry block.0 page.0 mark.sector.0 mark.stamp bytes.now else self.old.bytes.now) }
        ensures geometry { self.new.geometry ≡ self.old.geometry }
        ensures image { StaysImage self.old.bytes.now self.new.bytes.now (chip_flash self.new.bytes.now self.new.geometry) }
    {
        let geometry = self.geometry_for(block, page, bytes.len())?;
        let at = page_places(geometry, block, page);
        let held = self.number(at.sector);
        if mark.sector.0 == NO_SECTOR {
            return Err(Refusal::SectorNumberReserved);
        }
        if held != NO_SECTOR {
            return Err(Refusal::PageNotBlank);
        }
        put_page(self.bytes, at, mark, bytes);
        Ok(())
    }

    #[tactic(auto, using(crate::proofs::Chips::means, crate::proofs::Chips::chip_count))]
    fn erase(&mut self, block: Block) -> Result<(), Refusal>
        ensures answer { done_told result ≡ erase_answer (chip_flash self.old.bytes.now self.old.geometry) block.0 }
        ensures after { chip_flash self.new.bytes.now self.new.geometry ≡ erased (chip_flash self.old.bytes.now self.old.geometry) block.0 }
        ensures bytes { self.new.bytes.now ≡ (if accepts (done_told result) then chip_erased self.old.bytes.now self.old.geometry block.0 else self.old.bytes.now) }
        ensures geometry { self.new.geometry ≡ self.old.geometry }
        ensures image { StaysImage self.old.bytes.now self.new.bytes.now (chip_flash self.new.bytes.now self.new.geometry) }
    {
        let geometry = self.geometry_with(block)?;
        let count = self.number(count_at(block));
        if count >= geometry.life {
            return Err(Refusal::BlockWornOut);
        }
        let pages = geometry.pages as usize;
        let at = page_places(geometry, block, PageOffset(0));
        put_erased(self.bytes, count_at(block), count + 1, at, pages);
        Ok(())
    }

    fn count(&self, block: Block) -> Result<u32, Refusal> {
        self.geometry_with(block)?;
        Ok(self.number(count_at(block)))
    }
}
