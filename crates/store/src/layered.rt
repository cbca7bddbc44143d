// A layer as a sector store.
//
// The table is what the device shows in the places of the sectors. What a write does to it is said where some calls from some format lead to
// the layer, since only there do the tables and the pages agree; a write leads on from there. A bar is the layer's refusal: 12 once an
// overwrite could wear out a block, 14 once the stamps are used up. Neither ever goes away.

ghost use Rattle.std.specs.Prelude.{◌≡◌};
ghost use Rattle.fast.specs.Makes.{Made};
ghost use Rattle.fast.specs.Told.{layer_of, write_told};
ghost use Rattle.scheme.specs.Ledger.{write};
ghost use Rattle.scheme.specs.Runs.{call};
ghost use Rattle.store.specs.Layered.{layer_table, Reachable};
ghost use Rattle.store.specs.Meaning.{Written};
ghost use Rattle.store.specs.Told.{refusal_told};

use crate::store::Store;
use fast::layer::{Found, Layer};
use fast::refusal::Refusal;
use flash::device::Device;
use flash::numbers::Sector;

impl<D: Device> Store for Layer<D> {
    ghost table = { λ y. layer_table (layer_of D.Device.flash y) };

    ghost valid = { λ y. Reachable (layer_of D.Device.flash y) };

    ghost makes = { λ y z. Made (layer_of D.Device.flash y) (layer_of D.Device.flash z) };

    fn sectors(&self) -> u32 {
        Layer::sectors(self)
    }

    fn read(&self, sector: Sector, buffer: &mut [u8]) -> Result<Found, Refusal> {
        Layer::read(self, sector, buffer)
    }

    fn write(&mut self, sector: Sector, bytes: &[u8]) -> Result<(u32, u32), Refusal>
        ensures after { Reachable (layer_of D.Device.flash self.old) → Written (layer_table (layer_of D.Device.flash self.old)) (layer_table (layer_of D.Device.flash self.new)) sector.0 bytes.now (refusal_told result) }
        ensures stays { Reachable (layer_of D.Device.flash self.old) → Reachable (layer_of D.Device.flash self.new) }
        ensures reply { write_told result bytes.now ≡ (call (layer_of D.Device.flash self.old) (write sector.0 bytes.now)).reply }
        ensures made { Made (layer_of D.Device.flash self.old) (layer_of D.Device.flash self.new) (write sector.0 bytes.now) (write_told result bytes.now) }
        ensures layer { layer_of D.Device.flash self.new ≡ (call (layer_of D.Device.flash self.old) (write sector.0 bytes.now)).after }
    {
        Layer::write(self, sector, bytes)
    }
}
