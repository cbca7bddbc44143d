// Whether the blocks of a device bear more erases. This is the only part of the layer that walks over all blocks.

ghost use Rattle.std.specs.Prelude.{◌≡◌, ◌+◌, ◌&&◌, nat_lt};
ghost use Rattle.scheme.specs.Functions.{some_below};

use flash::device::Device;
use flash::numbers::Block;

// Whether a block could not bear `most` more erases; one that is not there is not worn.
fn near<D: Device>(device: &D, block: Block, most: u32, life: u32) -> bool
    ensures { result ≡ nat_lt block.0 (D.Device.flash device.now).blocks && nat_lt life ((D.Device.flash device.now).count block.0 + most) }
{
    device
        .count(block)
        .is_ok_and(|count| (life as u64) < count as u64 + most as u64)
}

// Whether some block could not: each block's count is asked at most once.
pub(crate) fn worn<D: Device>(device: &D, most: u32) -> bool
    ensures { result ≡ some_below (D.Device.flash device.now).blocks (λ b. nat_lt (D.Device.flash device.now).life ((D.Device.flash device.now).count b + most)) }
{
    let life = device.life();
    (0..device.blocks()).any(|b| near(device, Block(b), most, life))
}
