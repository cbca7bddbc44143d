// What the check of an image reads: the bytes themselves, or what is going to be written into them.

ghost use Rattle.std.specs.Prelude.{◌≡◌, ◌+◌, if◌then◌else◌, Some, None, nat_lt};
ghost use Rattle.image.specs.Format.{Words, in_bytes};

pub trait Source {
    // How many bytes there are, and the number that stands at each.
    ghost words: { Self → Words };

    // How many bytes there are.
    fn size(&self) -> usize
        ensures { result ≡ (words self.now).size };

    // The number at a byte, of four bytes, the lowest first, unless the end comes before its last byte.
    fn number(&self, at: usize) -> Option<u32>
        ensures { result ≡ (if nat_lt (words self.now).size (at + 4) then None else Some ((words self.now).word at)) };
}

impl<'a> Source for &'a [u8] {
    ghost words = { λ s. in_bytes s.now };

    fn size(&self) -> usize {
        self.len()
    }

    fn number(&self, at: usize) -> Option<u32> {
        let word = self.get(at..)?.first_chunk()?;
        Some(u32::from_le_bytes(*word))
    }
}
