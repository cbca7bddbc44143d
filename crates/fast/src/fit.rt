// The fit check: whether a device bears a layer of so many logical blocks and random log blocks.
//
// The limits keep every number of the layer small: at most 15,360 sectors and 512 entries. L + R + 2 blocks are the least that the steps
// need: a data block for each logical block, the random log blocks, the sequential log block, and one free block to merge into.

ghost use Rattle.std.specs.Prelude.{◌≡◌, ◌+◌, Some, nat_le};
ghost use Rattle.scheme.specs.Runs.{geometry_fits, fit};
ghost use Rattle.fast.specs.Told.{unfit_number, unfit_text, fit_told};

use crate::wear::worn;
use flash::device::Device;
use std::error::Error;
use std::fmt;

// Why a device does not fit. Where both reasons apply, the first is given.
#[derive(Clone, Copy, PartialEq, Eq, Debug)]
pub enum Unfit {
    OutOfRange = 11,
    WornOut = 12,
}

impl Unfit {
    pub fn number(self) -> u32
        ensures { result ≡ unfit_number self }
    {
        self as u32
    }
}

impl fmt::Display for Unfit {
    ghost output = { λ x. Some (unfit_text x) };

    fn fmt<W: fmt::Write>(&self, f: &mut fmt::Formatter<W>) -> fmt::Result {
        match *self {
            Unfit::OutOfRange => write!(f, "the sizes are out of range"),
            Unfit::WornOut => write!(f, "a block is worn out"),
        }
    }
}

impl Error for Unfit {}

// What a layer is to be: its logical blocks, the most random log blocks, and the first stamp. Any numbers may be asked for.
#[derive(Clone, Copy, PartialEq, Eq, Debug)]
pub struct Plan {
    pub logical: u32,
    pub random: u32,
    pub first_stamp: u32,
}

// Whether the blocks suffice. The sum is taken in 64 bits, for the arguments may be any numbers.
fn has_room(blocks: u32, logical: u32, random: u32) -> bool
    ensures { result ≡ nat_le (logical + random + 2) blocks }
{
    logical as u64 + random as u64 + 2 <= blocks as u64
}

// The limits are rules of the layer of its own, whatever an image may state.
fn geometry_fits<D: Device>(device: &D, plan: Plan) -> bool
    ensures { result ≡ geometry_fits (D.Device.flash device.now) plan.logical plan.random }
{
    (2..=32).contains(&device.pages())
        && device.blocks() <= 512
        && (1..=100_000).contains(&device.life())
        && (1..=480).contains(&plan.logical)
        && (1..=16).contains(&plan.random)
        && has_room(device.blocks(), plan.logical, plan.random)
}

// Checks a device against a plan. The first stamp may be any.
pub fn fit<D: Device>(device: &D, plan: Plan) -> Result<(), Unfit>
    ensures answer { fit_told result ≡ fit (D.Device.flash device.now) plan.logical plan.random }
{
    if !geometry_fits(device, plan) {
        return Err(Unfit::OutOfRange);
    }
    if worn(device, 1) {
        return Err(Unfit::WornOut);
    }
    Ok(())
}
