// A search for one byte.

ghost use Rattle.std.specs.Prelude.{◌≡◌, ◌+◌, ◌<◌, ◌≤◌, length, take, drop, position, ◌==◌, MatchOption};
ghost use Rattle.console.specs.Commands.{other_than};
ghost use Rattle.std.specs.List.{prefix_len};

// The place of the first byte that equals `stop`, if there is one.
fn place_of(bytes: &[u8], stop: u8) -> Option<usize>
    ensures { result ≡ position (λ b. b == stop) bytes.now }
{
    bytes.iter().position(|byte| *byte == stop)
}

// The bytes before the first that equals `stop`, and those behind it, if there is one.
pub(crate) fn split_once(bytes: &[u8], stop: u8) -> Option<(&[u8], &[u8])>
    ensures { let k = prefix_len (other_than stop) bytes.now in MatchOption result (length bytes.now ≤ k) (λ p. (k < length bytes.now) × (p.0.now ≡ take k bytes.now) × (p.1.now ≡ drop (k + 1) bytes.now)) }
{
    let at = place_of(bytes, stop)?;
    Some((&bytes[..at], &bytes[at + 1..]))
}
