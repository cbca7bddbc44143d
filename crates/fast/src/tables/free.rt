// The free blocks, taken from the front and returned to the back, so that the erases go round over all blocks that are ever free.

ghost use Rattle.std.specs.Prelude.{◌≡◌, ◌+◌, ◌<◌, [], ◌∷◌, ◌++◌, drop, slice_index};
ghost use Rattle.std.specs.VecDeque.{deque_len, deque_capacity};
ghost use Rattle.fast.specs.Views.{numbers, first_of};

use flash::numbers::Block;
use std::collections::VecDeque;

#[derive(Drop)]
pub(crate) struct FreeList {
    pub blocks: VecDeque<Block>,
}

impl FreeList {
    // The block that is taken next, if there is one.
    pub(crate) fn front(&self) -> Option<Block>
        ensures { result ≡ first_of self.now.blocks.items }
    {
        self.blocks.front().copied()
    }

    // Takes the front off.
    pub(crate) fn take(&mut self) -> Block
        requires { 0 < deque_len self.old.blocks }
        ensures block { result.0 ≡ slice_index (numbers self.old.blocks.items) 0 }
        ensures items { self.new.blocks.items ≡ drop 1 self.old.blocks.items }
        ensures len { deque_len self.new.blocks + 1 ≡ deque_len self.old.blocks }
        ensures room { deque_capacity self.new.blocks ≡ deque_capacity self.old.blocks }
    {
        self.blocks.pop_front().unwrap()
    }

    // Puts a block at the back.
    pub(crate) fn put(&mut self, block: Block)
        requires { deque_len self.old.blocks < deque_capacity self.old.blocks }
        ensures items { self.new.blocks.items ≡ self.old.blocks.items ++ (block ∷ []) }
        ensures len { deque_len self.new.blocks ≡ deque_len self.old.blocks + 1 }
        ensures room { deque_capacity self.new.blocks ≡ deque_capacity self.old.blocks }
    {
        self.blocks.push_back_reserved(block);
    }
}
