// The module that the programs work on: a chip of 4 blocks joined with a window of 4 blocks, from block 1 on, of a chip of 5. Block 0 of the
// second chip is set aside, so that nothing which the layer does may touch it.

ghost use Rattle.std.specs.Prelude.{◌≡◌, IfOk};
ghost use Rattle.fast.specs.Told.{layer_of, started};
ghost use Rattle.flash.specs.Joined.{joined};
ghost use Rattle.flash.specs.Windowed.{windowed};
ghost use Rattle.scheme.specs.Law.{Begun};
ghost use Rattle.scheme.specs.Runs.{format};

use fast::fit::Plan;
use fast::layer::Layer;
use flash::device::Device;
use flash::join::Join;
use flash::numbers::Block;
use flash::window::Window;
use image::shape::Geometry;
use std::alloc::{AllocError, Global};

// The chip of which the module shows all blocks, and the one of which it shows all but the first.
pub const LEFT: Geometry = Geometry {
    blocks: 4,
    pages: 4,
    life: 100,
};

pub const RIGHT: Geometry = Geometry { blocks: 5, ..LEFT };

// The layer that the programs lay over it, or over a device of as many blocks.
pub const PLAN: Plan = Plan {
    logical: 4,
    random: 2,
    first_stamp: 1,
};

// One device and 4 blocks, from block 1 on, of another, as one. The images below stay their owner's, since a chip borrows its bytes: a struct
// that owned them and made the module would have to be kept beside it all the same.
pub fn two_chips<First: Device, Second: Device>(
    first: First,
    second: Second,
) -> Join<First, Window<Second>>
    ensures { joined (First.Device.flash result.first) (windowed (Second.Device.flash result.second.device) result.second.first.0 result.second.count) ≡ joined (First.Device.flash first) (windowed (Second.Device.flash second) 1 4) }
{
    Join::new(first, Window::new(second, Block(1), 4))
}

// The layer that format gives, for a program that does not want its device back where there is no memory for the tables.
pub fn layer_over<D: Device + Drop>(
    heap: Global,
    device: D,
    plan: Plan,
) -> Result<Layer<D>, AllocError>
    ensures after { IfOk result (λ y. layer_of D.Device.flash y ≡ format (started (D.Device.flash device) plan.logical plan.random plan.first_stamp)) }
    ensures law { IfOk result (λ y. Begun (started (D.Device.flash device) plan.logical plan.random plan.first_stamp) (layer_of D.Device.flash y)) }
{
    Layer::format(heap, device, plan).map_err(|(_, error)| error)
}
