// A store in the caller's bytes, with nothing to it: 513 bytes for each sector, a byte that says whether it was ever written, and its 512.
//
// It refuses no write that names a sector and brings one, and answers no erases and no copies. It is what the layer is compared with.

ghost use Rattle.std.specs.Prelude.{◌≡◌, ◌+◌, ◌*◌, ◌<◌, ◌≤◌, not, [], ◌∷◌, length, IfOk, ◌==◌};
ghost use Rattle.fast.specs.Told.{found_told, write_told};
ghost use Rattle.flash.specs.Patched.{all_patched};
ghost use Rattle.scheme.specs.Ledger.{write, shown};
ghost use Rattle.store.specs.Meaning.{Written};
ghost use Rattle.store.specs.Plain.{plain_size, plain_at, plain_table, plain_after, PlainMade, Slot};
ghost use Rattle.store.specs.Told.{refusal_told};

use crate::store::{MOST_SECTORS, Store};
use fast::layer::Found;
use fast::refusal::{Refusal, addressed};
use flash::device::SECTOR_SIZE;
use flash::numbers::Sector;

// A sector with the byte before it.
pub const SLOT_SIZE: usize = SECTOR_SIZE + 1;

// A slot is a place in the caller's bytes, and no chunk of them: after `as_chunks_mut` a proof knows nothing of what was set in a chunk.
#[derive(Drop)]
pub struct PlainStore<'a> {
    bytes: &'a mut [u8],
}

// What the byte before a sector says: 0 for never written, and any other for written.
fn is_written(flag: u8) -> bool
    ensures { result ≡ not (flag == 0) }
{
    flag != 0
}

// What the slot at a byte holds.
fn show(bytes: &[u8], at: usize, buffer: &mut [u8; SECTOR_SIZE]) -> Found
    requires { at + 513 ≤ length bytes.now }
    ensures { found_told result buffer.new ≡ shown (plain_at bytes.now at) }
{
    if !is_written(bytes[at]) {
        buffer.fill(0xFF);
        return Found::NeverWritten;
    }
    buffer.copy_from_slice(&bytes[at + 1..at + SLOT_SIZE]);
    Found::Bytes
}

// Sets the slot at a byte.
fn put(bytes: &mut [u8], at: usize, sector: &[u8; SECTOR_SIZE])
    requires { at + 513 ≤ length bytes.old }
    ensures { bytes.new ≡ all_patched bytes.old ((at, 1 ∷ []) ∷ (at + 1, sector.now) ∷ []) }
{
    bytes[at] = 1;
    bytes[at + 1..at + SLOT_SIZE].copy_from_slice(sector);
}

impl<'a> PlainStore<'a> {
    pub fn new(bytes: &'a mut [u8]) -> PlainStore<'a>
        ensures { result.bytes.now ≡ bytes.old }
    {
        PlainStore { bytes }
    }

    // How many slots the bytes have room for.
    fn slots(&self) -> usize
        ensures value { result ≡ plain_size self.now.bytes.now }
        ensures bound { (result ≤ 65536) × (513 * result ≤ length self.now.bytes.now) }
    {
        (self.bytes.len() / SLOT_SIZE).min(MOST_SECTORS as usize)
    }

    // Where a sector's slot begins, for a buffer of so many bytes.
    fn slot(&self, sector: Sector, len: usize) -> Result<usize, Refusal>
        ensures { Slot self.now.bytes.now sector.0 len result }
    {
        addressed(sector, self.slots() as u32, len)?;
        Ok(SLOT_SIZE * sector.0 as usize)
    }
}

impl<'a> Store for PlainStore<'a> {
    ghost table = { λ s. plain_table s.bytes.now };

    ghost valid = { λ _. Unit {0} };

    ghost makes = { λ s t. PlainMade s.bytes.now t.bytes.now };

    fn sectors(&self) -> u32 {
        self.slots() as u32
    }

    fn read(&self, sector: Sector, buffer: &mut [u8]) -> Result<Found, Refusal> {
        let at = self.slot(sector, buffer.len())?;
        let buffer = buffer.as_mut_array().unwrap();
        Ok(show(self.bytes, at, buffer))
    }

    fn write(&mut self, sector: Sector, bytes: &[u8]) -> Result<(u32, u32), Refusal>
        ensures after { Unit {0} → Written (plain_table self.old.bytes.now) (plain_table self.new.bytes.now) sector.0 bytes.now (refusal_told result) }
        ensures stays { Unit {0} → Unit {0} }
        ensures made { PlainMade self.old.bytes.now self.new.bytes.now (write sector.0 bytes.now) (write_told result bytes.now) }
        ensures bytes { self.new.bytes.now ≡ plain_after (refusal_told result) self.old.bytes.now sector.0 bytes.now }
        ensures counts { IfOk result (λ p. (p.0 ≡ 0) × (p.1 ≡ 0)) }
    {
        let at = self.slot(sector, bytes.len())?;
        let bytes = bytes.as_array().unwrap();
        put(self.bytes, at, bytes);
        Ok((0, 0))
    }
}
