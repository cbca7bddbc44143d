// What takes calls: a read or a write of a numbered sector, each with the caller's own buffer.
//
// A layer does, and so does whatever answers like one. The ghost member says what a call does, on anything that takes it: where it leads,
// and with what it is replied to, the counts and the buffer too. Lists of calls are spoken of by that alone.

ghost use Rattle.scheme.specs.Ledger.{Call, Reply, read, write};
ghost use Rattle.fast.specs.Makes.{Made};
ghost use Rattle.fast.specs.Told.{layer_of, read_told, write_told};

use crate::layer::{Found, Layer};
use crate::refusal::Refusal;
use flash::device::Device;
use flash::numbers::Sector;

pub trait Sectors {
    // A call on the first leads to the second, and is replied to so.
    ghost makes: { Self → Self → Call → Reply → Type 0 };

    // A sector's bytes in the buffer, or the buffer filled with 0xFF where it was never written.
    fn read(&self, sector: Sector, buffer: &mut [u8]) -> Result<Found, Refusal>
        ensures { makes self.now self.now (read sector.0 buffer.old) (read_told result buffer.new) };

    // Sets a sector. Answers a pair of counts: the erases and the copied pages that it took.
    fn write(&mut self, sector: Sector, bytes: &[u8]) -> Result<(u32, u32), Refusal>
        ensures { makes self.old self.new (write sector.0 bytes.now) (write_told result bytes.now) };
}

impl<D: Device> Sectors for Layer<D> {
    ghost makes = { λ y z. Made (layer_of D.Device.flash y) (layer_of D.Device.flash z) };

    fn read(&self, sector: Sector, buffer: &mut [u8]) -> Result<Found, Refusal> {
        Layer::read(self, sector, buffer)
    }

    fn write(&mut self, sector: Sector, bytes: &[u8]) -> Result<(u32, u32), Refusal> {
        Layer::write(self, sector, bytes)
    }
}
