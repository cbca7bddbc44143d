// Command lines on a fresh layer: over any device, and over the module of two blank chips that the program works on.

ghost use Rattle.std.specs.Prelude.{◌≡◌, ◌<◌, ◌≤◌, [], ◌∷◌, ◌++◌, length, IfOk, codes};
ghost use Rattle.console.specs.Lines.{lines};
ghost use Rattle.console.specs.Running.{Asks, ByLine, Prints};
ghost use Rattle.fast.specs.Makes.{Made};
ghost use Rattle.fast.specs.Told.{started};
ghost use Rattle.scheme.specs.Bench.{bench};
ghost use Rattle.scheme.specs.Runs.{Layer as SchemeLayer, format};
ghost use Rattle.store.specs.Layered.{layer_table};
ghost use Rattle.store.specs.Meaning.{Table};

use chips::blank::{NoImage, blank_image};
use chips::module::{LEFT, PLAN, RIGHT, layer_over, two_chips};
use console::respond::respond;
use flash::chip::ImageChip;
use flash::device::Device;
use std::alloc::{AllocError, Global};

// What the lines print on the layer that format gives, with 4 logical blocks, 2 random log blocks and first stamp 1.
pub fn respond_fresh<D: Device + Drop>(
    heap: Global,
    device: D,
    input: &[u8],
) -> Result<Vec<u8>, AllocError>
    ensures prints { IfOk result (λ out. length input.now ≤ 65536 → (u : Table) × Prints (layer_table (format (started (D.Device.flash device) 4 2 1))) 1 (lines input.now) out.items u) }
    ensures made { IfOk result (λ out. length input.now ≤ 65536 → (y : SchemeLayer) × ByLine (Asks Made) (format (started (D.Device.flash device) 4 2 1)) 1 (lines input.now) out.items y) }
    ensures refuses { IfOk result (λ out. 65536 < length input.now → out.items ≡ codes "too long" ++ (10 ∷ [])) }
{
    let mut layer = layer_over(heap, device, PLAN)?;
    respond(heap, &mut layer, input)
}

// The same on the module of two blank chips, of 8 blocks in all, 4 pages a block, life 100.
pub fn respond_on_module(heap: Global, input: &[u8]) -> Result<Vec<u8>, NoImage>
    ensures prints { IfOk result (λ out. length input.now ≤ 65536 → (u : Table) × Prints (layer_table (format bench)) 1 (lines input.now) out.items u) }
    ensures made { IfOk result (λ out. length input.now ≤ 65536 → (y : SchemeLayer) × ByLine (Asks Made) (format bench) 1 (lines input.now) out.items y) }
    ensures refuses { IfOk result (λ out. 65536 < length input.now → out.items ≡ codes "too long" ++ (10 ∷ [])) }
{
    let mut left = blank_image(heap, LEFT)?;
    let mut right = blank_image(heap, RIGHT)?;
    let module = two_chips(ImageChip::new(&mut left), ImageChip::new(&mut right));
    Ok(respond_fresh(heap, module, input)?)
}
