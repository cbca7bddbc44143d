// The input of a program, up to a limit.

#![tactic(auto)]

ghost use Rattle.std.specs.Prelude.{◌≡◌, ◌+◌, IfOk, IfSome, min, take};

use std::alloc::Global;
use std::io::{self, Read};

// What a reader gives, up to one byte past the limit: that byte tells a longer input from one of just this length. The rest is left. The
// contract speaks of readers whose bytes are known; of others, as a program's standard input, nothing can be said.
pub fn read_input<R: Read + Drop>(heap: Global, reader: R, most: usize) -> io::Result<Vec<u8>>
    ensures { IfOk result (λ bytes. IfSome (R.Read.remaining reader) (λ xs. bytes.items ≡ take (min (most + 1) 0xFFFFFFFFFFFFFFFF) xs)) }
{
    let mut bytes = Vec::new(heap);
    reader
        .take((most as u64).saturating_add(1))
        .read_to_end(&mut bytes)?;
    Ok(bytes)
}

#[cfg(test)]
mod tests;
