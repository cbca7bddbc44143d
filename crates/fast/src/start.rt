// The tables that format leaves. Every list is reserved here for as long as it can ever be, so that no later call allocates.

ghost use Rattle.std.specs.Prelude.{◌≡◌, ◌-◌, ◌≤◌, IfOk};
ghost use Rattle.std.specs.VecDeque.{deque_len, deque_capacity};
ghost use Rattle.scheme.specs.Steps.{rising, first_tables};
ghost use Rattle.fast.specs.Meaning.{view_of};
ghost use Rattle.fast.specs.Views.{numbers};

use crate::tables::free::FreeList;
use crate::tables::random::RwList;
use crate::tables::{Sizes, Tables};
use flash::numbers::Block;
use std::alloc::{AllocError, Global};
use std::collections::VecDeque;

// The blocks from `first` up to `end`, in a queue with room for `room`. What is collected from a chain says nothing of its room.
fn blocks_from(heap: Global, first: u32, end: u32, room: u32) -> Result<VecDeque<Block>, AllocError>
    requires fits { first ≤ end }
    requires small { end ≤ room }
    ensures { IfOk result (λ v. (numbers v.items ≡ rising first (end - first)) × (deque_len v ≡ end - first) × (room ≤ deque_capacity v)) }
{
    let mut blocks = VecDeque::with_capacity(heap, room as usize)?;
    for b in first..end {
        blocks.push_back_reserved(Block(b));
    }
    Ok(blocks)
}

// Logical block i has block i, and the rest are free, in rising order.
pub(crate) fn start_tables(heap: Global, sizes: Sizes, first: u32) -> Result<Tables, AllocError>
    ensures { IfOk result (λ t. (view_of t ≡ first_tables sizes.logical sizes.blocks first) × (t.sizes ≡ sizes)) }
{
    let map = Vec::from(blocks_from(heap, 0, sizes.logical, sizes.logical)?);
    let free = blocks_from(heap, sizes.logical, sizes.blocks, sizes.blocks)?;
    let logs = VecDeque::with_capacity(heap, sizes.random as usize)?;
    let entries = VecDeque::with_capacity(heap, sizes.pages as usize * sizes.random as usize)?;
    let rw = RwList {
        blocks: logs,
        entries,
    };
    Ok(Tables {
        sizes,
        map,
        sw: None,
        rw,
        free: FreeList { blocks: free },
        next: first,
    })
}
