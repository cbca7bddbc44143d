// A store of a caller's own, which has no sectors. It leaves out what a store may leave out, the member `makes`.

ghost use Rattle.console_tests.specs.Empty.{no_table};
ghost use Rattle.store.specs.Meaning.{Written};
ghost use Rattle.store.specs.Told.{refusal_told};

use fast::layer::Found;
use fast::refusal::Refusal;
use flash::numbers::Sector;
use store::store::Store;

#[derive(Drop)]
pub(crate) struct NoSectors;

impl Store for NoSectors {
    ghost table = { λ _. no_table };

    ghost valid = { λ _. Unit {0} };

    fn sectors(&self) -> u32 {
        0
    }

    fn read(&self, _sector: Sector, _buffer: &mut [u8]) -> Result<Found, Refusal> {
        Err(Refusal::NoSuchSector)
    }

    fn write(&mut self, _sector: Sector, _bytes: &[u8]) -> Result<(u32, u32), Refusal>
        ensures after { Unit {0} → Written no_table no_table _sector.0 _bytes.now (refusal_told result) }
        ensures stays { Unit {0} → Unit {0} }
    {
        Err(Refusal::NoSuchSector)
    }
}
