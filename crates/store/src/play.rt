// A list of calls on any store, one after the other.
//
// It is here for what its contract says, once for every store: the replies are those that a ledger gives which starts from the store's
// first table and is shown each call with its reply.

ghost use Rattle.std.specs.Prelude.{◌≡◌, IfOk, OnErr};
ghost use Rattle.fast.specs.Makes.{MakesAll};
ghost use Rattle.fast.specs.Replay.{calls_told, replies_told};
ghost use Rattle.scheme.specs.Ledger.{AllAnswered};
ghost use Rattle.store.specs.Played.{ledger_of, Made};

use crate::store::Store;
use fast::layer::Found;
use fast::refusal::Refusal;
use fast::replay::{self, Call, Reply};
use fast::sectors::Sectors;
use flash::numbers::Sector;
use std::alloc::{AllocError, Global};

// A store as what takes calls: each does what the store says, and moves its table as the ledger moves.
#[derive(Drop)]
struct Asked<'a, S: Store> {
    store: &'a mut S,
}

impl<'a, S: Store> Sectors for Asked<'a, S> {
    ghost makes = { λ x y c r. (y.store.ghost_name ≡ x.store.ghost_name) × S.Store.makes x.store.now y.store.now c r × (S.Store.valid x.store.now → Made (S.Store.table x.store.now) (S.Store.table y.store.now) c r × S.Store.valid y.store.now) };

    fn read(&self, sector: Sector, buffer: &mut [u8]) -> Result<Found, Refusal> {
        self.store.read(sector, buffer)
    }

    fn write(&mut self, sector: Sector, bytes: &[u8]) -> Result<(u32, u32), Refusal> {
        self.store.write(sector, bytes)
    }
}

// Makes a list of calls, and gives back each call's answer and buffer. For want of memory nothing is done.
pub fn play<S: Store>(
    heap: Global,
    store: &mut S,
    calls: Vec<Call>,
) -> Result<Vec<Reply>, AllocError>
    ensures law { IfOk result (λ replies. S.Store.valid store.old → AllAnswered (ledger_of (S.Store.table store.old)) (calls_told calls.items) (replies_told replies.items)) }
    ensures made { IfOk result (λ replies. MakesAll S.Store.makes store.old (calls_told calls.items) (replies_told replies.items) store.new) }
    ensures stays { S.Store.valid store.old → S.Store.valid store.new }
    ensures untouched { OnErr result (store.new ≡ store.old) }
{
    replay::play(heap, &mut Asked { store }, calls)
}
