// The tables of the layer: the block map, the log blocks with what is in them, the free blocks and the next stamp.
//
// No value of `Tables` can be made in which a block has two roles or none, or a sector two live entries: the ghost fields say so, and
// each place that makes a value owes them. That is why tables are only ever written whole, taken apart by a pattern and made again by a
// literal, while their parts change in place. The lists are reserved whole at format, so that nothing here can fail for want of memory.

ghost use Rattle.std.specs.Prelude.{◌≡◌, ◌+◌, ◌*◌, ◌/◌, ◌%◌, ◌<◌, ◌≤◌, vec_len};
ghost use Rattle.std.specs.VecDeque.{deque_len, deque_capacity};
ghost use Rattle.fast.specs.Rules.{OneRole, OneLive, busy, owner_of, fill_of};
ghost use Rattle.fast.specs.Views.{entries_view};

use crate::numbers::LogicalBlock;
use crate::tables::free::FreeList;
use crate::tables::random::RwList;
use crate::tables::sequential::Sw;
use flash::numbers::{Block, PageOffset, Sector};

pub(crate) mod changes;
pub(crate) mod free;
pub(crate) mod place;
pub(crate) mod random;
pub(crate) mod sequential;
pub(crate) mod standing;

// How large a layer is: the pages of a block, the logical blocks, the most random log blocks, and the blocks of the device.
#[derive(Drop)]
pub(crate) struct Sizes {
    pub pages: u32,
    pub logical: u32,
    pub random: u32,
    pub blocks: u32,
    ghost pages_fit: { (2 ≤ pages) × (pages ≤ 32) },
    ghost logical_fits: { (1 ≤ logical) × (logical ≤ 480) },
    ghost random_fits: { (1 ≤ random) × (random ≤ 16) },
    ghost blocks_fit: { (blocks ≤ 512) × (logical + random + 2 ≤ blocks) },
}

impl Sizes {
    // How many sectors there are.
    pub(crate) fn sectors(&self) -> u32
        ensures { result ≡ self.now.logical * self.now.pages }
    {
        self.logical * self.pages
    }

    // The logical block that a sector lies in, and its place there.
    pub(crate) fn split(&self, sector: Sector) -> (LogicalBlock, PageOffset)
        ensures block { result.0.0 ≡ sector.0 / self.now.pages }
        ensures offset { result.1.0 ≡ sector.0 % self.now.pages }
    {
        (
            LogicalBlock(sector.0 / self.pages),
            PageOffset(sector.0 % self.pages),
        )
    }
}

// The block map has the data block of each logical block. `all_blocks` counts the blocks by their roles: with `blocks_fit` and
// `few_logs` it shows that there is a free block whenever one is taken.
#[derive(Drop)]
pub(crate) struct Tables {
    pub sizes: Sizes,
    pub map: Vec<Block>,
    pub sw: Option<Sw>,
    pub rw: RwList,
    pub free: FreeList,
    pub next: u32,
    ghost one_role: { OneRole sizes.blocks map.items sw rw.blocks.items free.blocks.items },
    ghost one_live: { OneLive (sizes.logical * sizes.pages) (entries_view rw.entries.items) },
    ghost owned: { owner_of sw < sizes.logical },
    ghost filled: { (busy sw ≤ fill_of sw) × (fill_of sw ≤ sizes.pages) },
    ghost mapped: { vec_len map ≡ sizes.logical },
    ghost all_blocks: { sizes.logical + busy sw + deque_len rw.blocks + deque_len free.blocks ≡ sizes.blocks },
    ghost few_logs: { deque_len rw.blocks ≤ sizes.random },
    ghost entries_fit: { deque_len rw.entries ≤ sizes.pages * deque_len rw.blocks },
    ghost logs_full: { sizes.pages * deque_len rw.blocks ≤ deque_len rw.entries + sizes.pages },
    ghost room_logs: { sizes.random ≤ deque_capacity rw.blocks },
    ghost room_entries: { sizes.pages * sizes.random ≤ deque_capacity rw.entries },
    ghost room_free: { sizes.blocks ≤ deque_capacity free.blocks },
}
