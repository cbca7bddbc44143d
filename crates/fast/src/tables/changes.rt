// The changes of the tables, each made whole: which blocks change their role is said by the clause `roles`, through the match of role and
// event. The tables are taken apart by a pattern, their parts change in place, and a literal makes them again, which owes every rule of the
// tables once. A block that is given up goes to the back of the free list here; the caller erases it before anything else.
//
// `sized` stands beside each equation `tables`: what the tables mean says nothing of the sizes, and one definition of both would hide the
// equation.

ghost use Rattle.std.specs.Prelude.{◌≡◌, ◌+◌, ◌-◌, ◌*◌, ◌<◌, ◌≤◌, [], ◌∷◌, ◌++◌, drop, Some, None, nat_eq, slice_index};
ghost use Rattle.std.specs.VecDeque.{deque_len};
ghost use Rattle.scheme.specs.Roles.{Led, taken_as_data, taken_as_sequential, taken_as_random, finished, erased};
ghost use Rattle.scheme.specs.Steps.{merged, turn};
ghost use Rattle.scheme.specs.Tables.{owned, stale_all, live, with_sequential, with_random, with_free, with_next};
ghost use Rattle.fast.specs.Meaning.{view_of, front_of, rest_of, Sized, Full, HasRoom, Logged};
ghost use Rattle.fast.specs.Views.{sw_view};

use crate::numbers::LogicalBlock;
use crate::tables::Tables;
use crate::tables::sequential::Sw;
use flash::numbers::{Block, Sector};

impl Tables {
    // The first free block becomes the data block of a logical block that does not own the sequential log block. Answers the old one, which
    // is free.
    pub(crate) fn renew(self, c: LogicalBlock) -> (Tables, Block)
        requires known { c.0 < self.sizes.logical }
        requires unowned { owned c.0 (sw_view self.sw) ≡ None }
        ensures tables { view_of result.0 ≡ merged self.sizes.pages c.0 (front_of self) (rest_of self) ((view_of self).data_block c.0 ∷ []) (view_of self) }
        ensures old { result.1.0 ≡ (view_of self).data_block c.0 }
        ensures roles { Led self.sizes.blocks (view_of self) (turn taken_as_data (front_of self) ∷ turn erased ((view_of self).data_block c.0) ∷ []) (view_of result.0) }
        ensures sized { Sized result.0 self }
        ensures logged { Logged result.0 self }
    {
        let Tables {
            sizes,
            mut map,
            sw,
            mut rw,
            mut free,
            next,
        } = self;
        let new = free.take();
        let old = map[c.0 as usize];
        map[c.0 as usize] = new;
        rw.expire_block(c, sizes.pages);
        free.put(old);
        (
            Tables {
                sizes,
                map,
                sw,
                rw,
                free,
                next,
            },
            old,
        )
    }

    // The sequential log block becomes its owner's data block. Answers the old one, which is free.
    pub(crate) fn adopt(self, sw: Sw) -> (Tables, Block)
        requires has { self.sw ≡ Some sw }
        ensures tables { view_of result.0 ≡ merged self.sizes.pages sw.owner.0 sw.block.0 (view_of self).free ((view_of self).data_block sw.owner.0 ∷ []) (view_of self) }
        ensures none { result.0.sw ≡ None }
        ensures old { result.1.0 ≡ (view_of self).data_block sw.owner.0 }
        ensures roles { Led self.sizes.blocks (view_of self) (turn finished sw.block.0 ∷ turn erased ((view_of self).data_block sw.owner.0) ∷ []) (view_of result.0) }
        ensures sized { Sized result.0 self }
        ensures logged { Logged result.0 self }
    {
        let Tables {
            sizes,
            mut map,
            sw: _,
            mut rw,
            mut free,
            next,
        } = self;
        let c = sw.owner;
        let old = map[c.0 as usize];
        map[c.0 as usize] = sw.block;
        rw.expire_block(c, sizes.pages);
        free.put(old);
        (
            Tables {
                sizes,
                map,
                sw: None,
                rw,
                free,
                next,
            },
            old,
        )
    }

    // The first free block becomes the data block of the owner of the sequential log block. Answers the old one; it and the log block are
    // free.
    pub(crate) fn replace(self, sw: Sw) -> (Tables, Block)
        requires has { self.sw ≡ Some sw }
        ensures tables { view_of result.0 ≡ merged self.sizes.pages sw.owner.0 (front_of self) (rest_of self) ((view_of self).data_block sw.owner.0 ∷ sw.block.0 ∷ []) (view_of self) }
        ensures old { result.1.0 ≡ (view_of self).data_block sw.owner.0 }
        ensures roles { Led self.sizes.blocks (view_of self) (turn taken_as_data (front_of self) ∷ turn erased ((view_of self).data_block sw.owner.0) ∷ turn erased sw.block.0 ∷ []) (view_of result.0) }
        ensures sized { Sized result.0 self }
        ensures logged { Logged result.0 self }
    {
        let Tables {
            sizes,
            mut map,
            sw: _,
            mut rw,
            mut free,
            next,
        } = self;
        let c = sw.owner;
        let new = free.take();
        let old = map[c.0 as usize];
        map[c.0 as usize] = new;
        rw.expire_block(c, sizes.pages);
        free.put(old);
        free.put(sw.block);
        (
            Tables {
                sizes,
                map,
                sw: None,
                rw,
                free,
                next,
            },
            old,
        )
    }
}

impl Tables {
    // The first free block becomes the sequential log block of a logical block, with its page 0 filled.
    pub(crate) fn open(self, owner: LogicalBlock) -> Tables
        requires known { owner.0 < self.sizes.logical }
        requires none { self.sw ≡ None }
        ensures tables { view_of result ≡ with_sequential (Some (record { owner = owner.0; block = front_of self; fill = 1 })) (with_free (rest_of self) (view_of self)) }
        ensures roles { Led self.sizes.blocks (view_of self) (turn taken_as_sequential (front_of self) ∷ []) (view_of result) }
        ensures sized { Sized result self }
    {
        let Tables {
            sizes,
            map,
            sw: _,
            rw,
            mut free,
            next,
        } = self;
        let block = free.take();
        Tables {
            sizes,
            map,
            sw: Some(Sw {
                owner,
                block,
                fill: 1,
            }),
            rw,
            free,
            next,
        }
    }

    // A sector is in the next page of the sequential log block.
    pub(crate) fn extend(self, sw: Sw, taken: Sector) -> Tables
        requires has { self.sw ≡ Some sw }
        requires short { sw.fill < self.sizes.pages }
        ensures tables { view_of result ≡ with_sequential (Some (record { owner = sw.owner.0; block = sw.block.0; fill = sw.fill + 1 })) (with_random (view_of self).logs (stale_all (λ m. nat_eq m taken.0) (view_of self).entries) (view_of self)) }
        ensures sized { Sized result self }
    {
        let Tables {
            sizes,
            map,
            sw: _,
            mut rw,
            free,
            next,
        } = self;
        let mut longer = sw;
        longer.extend();
        rw.expire_sector(taken);
        Tables {
            sizes,
            map,
            sw: Some(longer),
            rw,
            free,
            next,
        }
    }

    // The first free block becomes the last random log block.
    pub(crate) fn take_log(self) -> Tables
        requires fewer { deque_len self.rw.blocks < self.sizes.random }
        requires full { Full self }
        ensures tables { view_of result ≡ with_random ((view_of self).logs ++ (front_of self ∷ [])) (view_of self).entries (with_free (rest_of self) (view_of self)) }
        ensures roles { Led self.sizes.blocks (view_of self) (turn taken_as_random (front_of self) ∷ []) (view_of result) }
        ensures sized { Sized result self }
        ensures room { HasRoom result }
    {
        let Tables {
            sizes,
            map,
            sw,
            mut rw,
            mut free,
            next,
        } = self;
        let block = free.take();
        rw.add(block);
        Tables {
            sizes,
            map,
            sw,
            rw,
            free,
            next,
        }
    }

    // A sector is in the next page of the random log blocks.
    pub(crate) fn note(self, sector: Sector) -> Tables
        requires known { sector.0 < self.sizes.logical * self.sizes.pages }
        requires room { HasRoom self }
        ensures tables { view_of result ≡ with_random (view_of self).logs (stale_all (λ m. nat_eq m sector.0) (view_of self).entries ++ (live sector.0 ∷ [])) (view_of self) }
        ensures sized { Sized result self }
    {
        let Tables {
            sizes,
            map,
            sw,
            mut rw,
            free,
            next,
        } = self;
        rw.expire_sector(sector);
        rw.append(sector);
        Tables {
            sizes,
            map,
            sw,
            rw,
            free,
            next,
        }
    }

    // The oldest random log block is free. Answers it.
    pub(crate) fn retire(self) -> (Tables, Block)
        requires some { 0 < deque_len self.rw.blocks }
        requires long { self.sizes.pages ≤ deque_len self.rw.entries }
        ensures tables { view_of result.0 ≡ with_random (drop 1 (view_of self).logs) (drop self.sizes.pages (view_of self).entries) (with_free ((view_of self).free ++ (slice_index (view_of self).logs 0 ∷ [])) (view_of self)) }
        ensures block { result.1.0 ≡ slice_index (view_of self).logs 0 }
        ensures roles { Led self.sizes.blocks (view_of self) (turn erased (slice_index (view_of self).logs 0) ∷ []) (view_of result.0) }
        ensures sized { Sized result.0 self }
        ensures logs { deque_len result.0.rw.blocks + 1 ≡ deque_len self.rw.blocks }
        ensures entries { deque_len result.0.rw.entries ≡ deque_len self.rw.entries - self.sizes.pages }
    {
        let Tables {
            sizes,
            map,
            sw,
            mut rw,
            mut free,
            next,
        } = self;
        let block = rw.retire(sizes.pages);
        free.put(block);
        (
            Tables {
                sizes,
                map,
                sw,
                rw,
                free,
                next,
            },
            block,
        )
    }

    // The next stamp is used up.
    pub(crate) fn stamp(self) -> Tables
        requires left { self.next < 0xFFFFFFFF }
        ensures tables { view_of result ≡ with_next (self.next + 1) (view_of self) }
        ensures sized { result.sizes ≡ self.sizes }
    {
        let Tables {
            sizes,
            map,
            sw,
            rw,
            free,
            next,
        } = self;
        Tables {
            sizes,
            map,
            sw,
            rw,
            free,
            next: next + 1,
        }
    }
}
