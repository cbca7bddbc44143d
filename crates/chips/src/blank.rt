// A chip on which nothing was done, in memory of its own.

ghost use Rattle.std.specs.Prelude.{◌≡◌, true, false, Some, IfOk, IfErr, OnOk};
ghost use Rattle.chips.specs.declared.blank.NoImage.TheVariants.{OutOfRange, NoMemory};
ghost use Rattle.chips.specs.Told.{no_image_text};
ghost use Rattle.flash.specs.BlankImage.{blank_flash};
ghost use Rattle.flash.specs.Stored.{image_flash};
ghost use Rattle.image.specs.Shape.{ranged};

use flash::blank::write_blank;
use image::shape::Geometry;
use std::alloc::{AllocError, Global};
use std::error::Error;
use std::fmt;

// Why there is no blank image.
#[derive(Clone, Copy, PartialEq, Eq, Debug)]
pub enum NoImage {
    // no image may state the geometry
    OutOfRange,
    NoMemory,
}

impl fmt::Display for NoImage {
    ghost output = { λ x. Some (no_image_text x) };

    fn fmt<W: fmt::Write>(&self, f: &mut fmt::Formatter<W>) -> fmt::Result {
        match self {
            NoImage::OutOfRange => f.write_str("no image may state the geometry"),
            NoImage::NoMemory => f.write_str("no memory for the image"),
        }
    }
}

impl Error for NoImage {}

impl From<AllocError> for NoImage {
    ghost from_gives = { λ _ r. r ≡ NoMemory };

    fn from(_: AllocError) -> Self {
        NoImage::NoMemory
    }
}

// The image of a blank chip that was never erased.
pub fn blank_image(heap: Global, geometry: Geometry) -> Result<Vec<u8>, NoImage>
    ensures means { IfOk result (λ bytes. image_flash bytes.items ≡ blank_flash geometry.blocks geometry.pages geometry.life) }
    ensures ranged { OnOk result (ranged geometry.blocks geometry.pages geometry.life ≡ true) }
    ensures refuses { IfErr result (λ e. e ≡ OutOfRange → ranged geometry.blocks geometry.pages geometry.life ≡ false) }
{
    let length = geometry.image_length().ok_or(NoImage::OutOfRange)?;
    let mut bytes = vec![in heap; 0u8; length]?;
    write_blank(&mut bytes, geometry).map_err(|_| NoImage::OutOfRange)?;
    Ok(bytes)
}
