// The random log blocks, which take the overwrites that come in no order: any sector into the next blank page.
//
// Blocks and entries stand oldest first. Only filled pages have an entry, so entry i is that of page i mod P of block i div P, the next
// page to fill is at the number of entries, and "all full but perhaps the last" is a bound on two lengths. One list has the entries of all
// blocks, and none stands with its block, so that all the room there is comes from format: no memory may be asked for later.

ghost use Rattle.std.specs.Prelude.{◌≡◌, ◌+◌, ◌-◌, ◌*◌, ◌/◌, ◌%◌, ◌^◌, ◌<◌, ◌≤◌, [], ◌∷◌, ◌++◌, length, drop, IfSome, nat_eq, slice_index};
ghost use Rattle.std.specs.VecDeque.{deque_len, deque_capacity};
ghost use Rattle.scheme.specs.Place.{entry_of};
ghost use Rattle.scheme.specs.Tables.{stale_all, live};
ghost use Rattle.fast.specs.Views.{numbers, entries_view, expired_entry, in_run};

use crate::numbers::LogicalBlock;
use flash::numbers::{Block, PageOffset, Sector};
use std::collections::VecDeque;

// What a filled page holds: the newest bytes of a sector, or nothing of use any more. `Live` and `Stale` are the words of the layer's rules
// and of the scheme's own `Entry`, and an `Option` would have to be read as these each time.
#[derive(Clone, Copy, PartialEq, Eq, Debug)]
pub(crate) enum Entry {
    Live(Sector),
    Stale,
}

impl Entry {
    // The entry after the newest bytes of `count` sectors from `first` on came to stand elsewhere.
    pub(crate) fn expired(self, first: Sector, count: u32) -> Entry
        ensures { result ≡ expired_entry first.0 count self }
    {
        match self {
            Entry::Live(n) if n.0.checked_sub(first.0).is_some_and(|i| i < count) => Entry::Stale,
            other => other,
        }
    }
}

fn expire_entries(entries: &mut [Entry], first: Sector, count: u32)
    ensures { entries_view entries.new ≡ stale_all (in_run first.0 count) (entries_view entries.old) }
{
    for e in entries.iter_mut() {
        *e = e.expired(first, count);
    }
}

// The number of the live entry of a sector, if it has one here.
fn live_entry(entries: &[Entry], sector: Sector) -> Option<usize>
    ensures entry { result ≡ entry_of sector.0 0 (entries_view entries.now) }
    ensures within { IfSome result (λ i. i < length entries.now) }
{
    entries.iter().position(|e| *e == Entry::Live(sector))
}

// How much room the lists have and what a change leaves alone are facts of each change below, and no invariant here: how much room they
// need, and what has to hold of the rest, only the tables know.
#[derive(Drop)]
pub(crate) struct RwList {
    pub blocks: VecDeque<Block>,
    pub entries: VecDeque<Entry>,
}

impl RwList {
    // The number of the live entry of a sector, if it has one.
    pub(crate) fn find(&self, sector: Sector) -> Option<usize>
        ensures entry { result ≡ entry_of sector.0 0 (entries_view self.now.entries.items) }
        ensures within { IfSome result (λ i. i < deque_len self.now.entries) }
    {
        // the two parts of the queue one after the other: an iterator over both asks at every entry which part it is in
        let (front, back) = self.entries.as_slices();
        if let Some(i) = live_entry(front, sector) {
            return Some(i);
        }
        let i = live_entry(back, sector)?;
        Some(front.len() + i)
    }

    // The block and the page that an entry is of. The entry may be the next, whose page is still blank.
    pub(crate) fn page_of(&self, entry: usize, pages: u32) -> (Block, PageOffset)
        requires some { 0 < pages }
        requires within { entry < pages * deque_len self.now.blocks }
        ensures block { result.0.0 ≡ slice_index (numbers self.now.blocks.items) (entry / pages) }
        ensures page { result.1.0 ≡ entry % pages }
    {
        let pages = pages as usize;
        (
            self.blocks[entry / pages],
            PageOffset((entry % pages) as u32),
        )
    }

    // Makes the live entries of `count` sectors from `first` on stale: their newest bytes stand elsewhere now.
    fn expire(&mut self, first: Sector, count: u32)
        ensures blocks { self.new.blocks ≡ self.old.blocks }
        ensures entries { entries_view self.new.entries.items ≡ stale_all (in_run first.0 count) (entries_view self.old.entries.items) }
        ensures len { deque_len self.new.entries ≡ deque_len self.old.entries }
        ensures room { deque_capacity self.new.entries ≡ deque_capacity self.old.entries }
    {
        // laid straight in place: what is written through `iter_mut` of a queue would not be known
        expire_entries(self.entries.make_contiguous(), first, count);
    }

    // A sector was written elsewhere.
    pub(crate) fn expire_sector(&mut self, sector: Sector)
        ensures blocks { self.new.blocks ≡ self.old.blocks }
        ensures entries { entries_view self.new.entries.items ≡ stale_all (λ n. nat_eq n sector.0) (entries_view self.old.entries.items) }
        ensures len { deque_len self.new.entries ≡ deque_len self.old.entries }
        ensures room { deque_capacity self.new.entries ≡ deque_capacity self.old.entries }
    {
        self.expire(sector, 1);
    }

    // A logical block was settled.
    pub(crate) fn expire_block(&mut self, c: LogicalBlock, pages: u32)
        requires some { 0 < pages }
        requires small { c.0 * pages < 2 ^ 32 }
        ensures blocks { self.new.blocks ≡ self.old.blocks }
        ensures entries { entries_view self.new.entries.items ≡ stale_all (λ n. nat_eq (n / pages) c.0) (entries_view self.old.entries.items) }
        ensures len { deque_len self.new.entries ≡ deque_len self.old.entries }
        ensures room { deque_capacity self.new.entries ≡ deque_capacity self.old.entries }
    {
        self.expire(Sector(c.0 * pages), pages);
    }

    // One more block at the end.
    pub(crate) fn add(&mut self, block: Block)
        requires { deque_len self.old.blocks < deque_capacity self.old.blocks }
        ensures blocks { self.new.blocks.items ≡ self.old.blocks.items ++ (block ∷ []) }
        ensures len { deque_len self.new.blocks ≡ deque_len self.old.blocks + 1 }
        ensures room { deque_capacity self.new.blocks ≡ deque_capacity self.old.blocks }
        ensures entries { self.new.entries ≡ self.old.entries }
    {
        self.blocks.push_back_reserved(block);
    }

    // One more page is filled, with a sector.
    pub(crate) fn append(&mut self, sector: Sector)
        requires { deque_len self.old.entries < deque_capacity self.old.entries }
        ensures blocks { self.new.blocks ≡ self.old.blocks }
        ensures entries { entries_view self.new.entries.items ≡ entries_view self.old.entries.items ++ (live sector.0 ∷ []) }
        ensures len { deque_len self.new.entries ≡ deque_len self.old.entries + 1 }
        ensures room { deque_capacity self.new.entries ≡ deque_capacity self.old.entries }
    {
        self.entries.push_back_reserved(Entry::Live(sector));
    }

    // Drops the oldest block, with the entries of its pages.
    pub(crate) fn retire(&mut self, pages: u32) -> Block
        requires some { 0 < deque_len self.old.blocks }
        requires long { pages ≤ deque_len self.old.entries }
        ensures block { result.0 ≡ slice_index (numbers self.old.blocks.items) 0 }
        ensures blocks { self.new.blocks.items ≡ drop 1 self.old.blocks.items }
        ensures blocks_len { deque_len self.new.blocks + 1 ≡ deque_len self.old.blocks }
        ensures blocks_room { deque_capacity self.new.blocks ≡ deque_capacity self.old.blocks }
        ensures entries { self.new.entries.items ≡ drop pages self.old.entries.items }
        ensures room { deque_capacity self.new.entries ≡ deque_capacity self.old.entries }
    {
        self.entries.drain(..pages as usize);
        self.blocks.pop_front().unwrap()
    }
}
