// Numbers and runs of bytes within an image: four bytes a number, the lowest first.

ghost use Rattle.std.specs.Prelude.{◌≡◌, ◌+◌, ◌^◌, ◌<◌, ◌≤◌, List, [], ◌∷◌, length, replicate};
ghost use Rattle.flash.specs.Patched.{patched};
ghost use Rattle.image.specs.Format.{word_bytes};

pub(crate) fn put_bytes(bytes: &mut [u8], at: usize, part: &[u8])
    requires { at + length part.now ≤ length bytes.old }
    ensures { bytes.new ≡ patched bytes.old at part.now }
{
    bytes[at..at + part.len()].copy_from_slice(part);
}

pub(crate) fn put_number(bytes: &mut [u8], at: usize, n: u32)
    requires { at + 4 ≤ length bytes.old }
    ensures after { bytes.new ≡ patched bytes.old at (word_bytes n) }
    ensures fits { n < 2 ^ 32 }
{
    put_bytes(bytes, at, &n.to_le_bytes());
}

pub(crate) fn put_run(bytes: &mut [u8], at: usize, size: usize, value: u8)
    requires { at + size ≤ length bytes.old }
    ensures { bytes.new ≡ patched bytes.old at (replicate size value) }
{
    bytes[at..at + size].fill(value);
}
