// Where a sector is read, and which block is taken next.
//
// A logical block and an offset are two arguments, and no struct: a merge goes over the offsets of one logical block, and the map and the
// owner of the sequential log block are asked by the block alone.

ghost use Rattle.std.specs.Prelude.{◌≡◌, ◌+◌, ◌*◌, ◌<◌, IfSome, Some, None};
ghost use Rattle.scheme.specs.Place.{place, behind};
ghost use Rattle.scheme.specs.Tables.{owned};
ghost use Rattle.fast.specs.Meaning.{view_of, front_of};
ghost use Rattle.fast.specs.Views.{sw_view};

use crate::numbers::LogicalBlock;
use crate::tables::Tables;
use crate::tables::sequential::Sw;
use flash::numbers::{Block, PageOffset, Sector};

impl Tables {
    // The free block that is taken next: there always is one.
    pub(crate) fn first_free(&self) -> Block
        ensures { result.0 ≡ front_of self.now }
    {
        self.free.front().unwrap()
    }

    // The sequential log block, if a logical block owns it.
    pub(crate) fn owned(&self, c: LogicalBlock) -> Option<Sw>
        ensures view { sw_view result ≡ owned c.0 (sw_view self.now.sw) }
        ensures has { IfSome result (λ k. (self.now.sw ≡ Some k) × (k.owner.0 ≡ c.0)) }
    {
        self.sw.filter(|sw| sw.owner == c)
    }

    // The page in the random log blocks that holds a sector, if one does, else the page of its data block.
    fn behind(&self, c: LogicalBlock, o: PageOffset) -> (Block, PageOffset)
        requires known { c.0 < self.now.sizes.logical }
        requires fits { o.0 < self.now.sizes.pages }
        ensures block { result.0.0 ≡ (behind self.now.sizes.pages (view_of self.now) c.0 o.0).block }
        ensures page { result.1.0 ≡ (behind self.now.sizes.pages (view_of self.now) c.0 o.0).page }
    {
        let sector = Sector(c.0 * self.sizes.pages + o.0);
        match self.rw.find(sector) {
            Some(i) => self.rw.page_of(i, self.sizes.pages),
            None => (self.map[c.0 as usize], o),
        }
    }

    pub(crate) fn place(&self, c: LogicalBlock, o: PageOffset) -> (Block, PageOffset)
        requires known { c.0 < self.now.sizes.logical }
        requires fits { o.0 < self.now.sizes.pages }
        ensures block { result.0.0 ≡ (place self.now.sizes.pages (view_of self.now) c.0 o.0).block }
        ensures page { result.1.0 ≡ (place self.now.sizes.pages (view_of self.now) c.0 o.0).page }
    {
        match self.sw {
            Some(sw) if sw.has(c, o) => (sw.block, o),
            _ => self.behind(c, o),
        }
    }
}
