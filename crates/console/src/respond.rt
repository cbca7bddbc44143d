// What a program answers to an input of bounded length: what its lines print, or `too long`.
//
// A longer input is not begun: half of its lines carried out would be worse than none. Each function that takes an input says so of itself
// (`refuses`), for it is what its own caller is promised.

ghost use Rattle.std.specs.Prelude.{◌≡◌, ◌<◌, ◌≤◌, [], ◌∷◌, ◌++◌, length, IfOk, codes};
ghost use Rattle.console.specs.Lines.{lines};
ghost use Rattle.console.specs.Running.{Asks, ByLine, Prints};

use crate::runner::run;
use std::alloc::{AllocError, Global};
use store::store::Store;

// The longest input. That `look` has the same limit is a rule of its own, of another program.
pub const MOST_BYTES: usize = 65_536;

pub fn respond<S: Store>(heap: Global, store: &mut S, input: &[u8]) -> Result<Vec<u8>, AllocError>
    ensures prints { IfOk result (λ out. length input.now ≤ 65536 → S.Store.valid store.old → Prints (S.Store.table store.old) 1 (lines input.now) out.items (S.Store.table store.new)) }
    ensures made { IfOk result (λ out. length input.now ≤ 65536 → ByLine (Asks S.Store.makes) store.old 1 (lines input.now) out.items store.new) }
    ensures refuses { IfOk result (λ out. 65536 < length input.now → out.items ≡ codes "too long" ++ (10 ∷ [])) }
    ensures untouched { 65536 < length input.now → store.new ≡ store.old }
    ensures stays { S.Store.valid store.old → S.Store.valid store.new }
{
    if input.len() > MOST_BYTES {
        return b"too long\n".to_vec(heap);
    }
    run(heap, store, input)
}
