// Two stores as one: even sectors go to the left store, odd ones to the right, each as sector n div 2 there.
//
// A run of sectors is thus shared evenly between the sides. A side that is larger than the other has sectors that the spread does not show.

ghost use Rattle.std.specs.Prelude.{◌≡◌, ◌/◌};
ghost use Rattle.store.specs.Sides.{Lies};
ghost use Rattle.store.specs.Spread.{spread_size, spread_table, SpreadMade};

use crate::store::{MOST_SECTORS, Store};
use fast::layer::Found;
use fast::refusal::Refusal;
use flash::numbers::Sector;

// A sector of one of the sides. `std`, on which libraries stand alone, has no type for one of two; the join's is private, below all stores.
#[derive(Clone, Copy)]
enum Side {
    OnLeft(Sector),
    OnRight(Sector),
}

#[derive(Drop)]
pub struct Spread<Left: Store, Right: Store> {
    pub left: Left,
    pub right: Right,
}

impl<Left: Store, Right: Store> Spread<Left, Right> {
    // Which sector of which side a sector of the spread is.
    fn side(&self, sector: Sector) -> Result<Side, Refusal>
        ensures { Lies (spread_size (Left.Store.table self.now.left) (Right.Store.table self.now.right)) sector.0 result }
    {
        if sector.0 >= self.sectors() {
            return Err(Refusal::NoSuchSector);
        }
        let there = Sector(sector.0 / 2);
        if sector.0 % 2 == 0 {
            Ok(Side::OnLeft(there))
        } else {
            Ok(Side::OnRight(there))
        }
    }
}

impl<Left: Store, Right: Store> Store for Spread<Left, Right> {
    ghost table = { λ s. spread_table (Left.Store.table s.left) (Right.Store.table s.right) };

    ghost valid = { λ s. Left.Store.valid s.left × Right.Store.valid s.right };

    ghost makes = { λ s t. SpreadMade (spread_size (Left.Store.table s.left) (Right.Store.table s.right)) Left.Store.makes Right.Store.makes s.left t.left s.right t.right };

    fn sectors(&self) -> u32 {
        self.left
            .sectors()
            .min(self.right.sectors())
            .saturating_mul(2)
            .min(MOST_SECTORS)
    }

    fn read(&self, sector: Sector, buffer: &mut [u8]) -> Result<Found, Refusal> {
        match self.side(sector)? {
            Side::OnLeft(there) => self.left.read(there, buffer),
            Side::OnRight(there) => self.right.read(there, buffer),
        }
    }

    fn write(&mut self, sector: Sector, bytes: &[u8]) -> Result<(u32, u32), Refusal> {
        match self.side(sector)? {
            Side::OnLeft(there) => self.left.write(there, bytes),
            Side::OnRight(there) => self.right.write(there, bytes),
        }
    }
}
