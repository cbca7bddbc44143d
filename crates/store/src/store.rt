// What a sector store is.
//
// A store means a table of sectors, each never written or 512 bytes, and for each sector a bar: 0, or the refusal that its next write would
// meet. Two things the table leaves open: when a bar goes from 0 to 12 or 14, and the pair of counts that a write answers. `makes` has the
// whole of a call, these too, and each store of ours says what it is.

ghost use Rattle.std.specs.Prelude.{◌≡◌, length};
ghost use Rattle.fast.specs.Told.{read_told, write_told};
ghost use Rattle.scheme.specs.Ledger.{Call, Reply, read, write, reads};
ghost use Rattle.store.specs.Meaning.{Table, Written};
ghost use Rattle.store.specs.Told.{refusal_told};

use fast::layer::Found;
use fast::refusal::Refusal;
use flash::numbers::Sector;

// The most sectors that a plain store and a spread show.
pub(crate) const MOST_SECTORS: u32 = 65_536;

// `stays` of `write`, and of each call of ours that makes writes, is a promise of that call: as an invariant of the type it would leave no
// store for which it does not hold, and those there are.
//
// `read` and `write` stand here beside those of `Sectors`: as laws over these, what they say of the table could cite no proof.
pub trait Store {
    // What the store means.
    ghost table: { Self → Table };

    // That the store is one that its own calls lead to. A write says what it does where this holds, and keeps it.
    ghost valid: { Self → Type 0 };

    // A call on the first leads to the second, and is replied to so. A store that leaves the member out says nothing of this: every call does.
    ghost makes: { Self → Self → Call → Reply → Type 0 } = { λ _ _ _ _. Unit {0} };

    // How many sectors there are.
    fn sectors(&self) -> u32
        ensures { result ≡ (table self.now).size };

    // A sector's bytes in the buffer, or the buffer filled with 0xFF where it was never written.
    fn read(&self, sector: Sector, buffer: &mut [u8]) -> Result<Found, Refusal>
        ensures shows { read_told result buffer.new ≡ reads (table self.now).size (table self.now).line sector.0 buffer.old }
        ensures made { makes self.now self.now (read sector.0 buffer.old) (read_told result buffer.new) };

    // Sets a sector. Answers a pair of counts: the erases and the copied pages that it took.
    fn write(&mut self, sector: Sector, bytes: &[u8]) -> Result<(u32, u32), Refusal>
        ensures after { valid self.old → Written (table self.old) (table self.new) sector.0 bytes.now (refusal_told result) }
        ensures stays { valid self.old → valid self.new }
        ensures made { makes self.old self.new (write sector.0 bytes.now) (write_told result bytes.now) };
}
