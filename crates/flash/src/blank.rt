// The image of a blank chip, written into the caller's bytes.
//
// A geometry that the check would refuse, and bytes that are shorter or longer than the image, are refused with the fault that the check
// would find in such an image: its number, its section and its byte. The bytes are then untouched.

ghost use Rattle.std.specs.Prelude.{◌≡◌, ◌+◌, ◌*◌, ◌^◌, ◌<◌, ◌≤◌, List, [], ◌∷◌, length, replicate, is_ok, if◌then◌else◌, OnOk};
ghost use Rattle.flash.specs.BlankImage.{blank_patches, blank_image, blank_flash, planned, Verdict, room_checked, room_told};
ghost use Rattle.flash.specs.Patched.{all_patched};
ghost use Rattle.flash.specs.Stored.{Fits, image_flash};
ghost use Rattle.image.specs.Format.{word_bytes, image_length, accepted, checked};

use crate::patch::{put_number, put_run};
use image::check::check_source;
use image::fault::ImageFault;
use image::shape::Geometry;
use image::source::Source;

// The image of a blank chip before there are any bytes of it: so many bytes, which are to state this geometry.
#[derive(Clone, Copy)]
struct Unwritten {
    size: usize,
    geometry: Geometry,
}

impl Source for Unwritten {
    ghost words = { λ p. planned p.size p.geometry.blocks p.geometry.pages p.geometry.life };

    fn size(&self) -> usize {
        self.size
    }

    fn number(&self, at: usize) -> Option<u32> {
        if self.size < at.checked_add(4)? {
            return None;
        }
        let Geometry {
            blocks,
            pages,
            life,
        } = self.geometry;
        Some(match at {
            0 => 3,
            4 | 16 => blocks,
            8 => pages,
            12 => life,
            _ => blocks.saturating_mul(pages),
        })
    }
}

// The counts and numbers of an image's sections, each at its place.
fn put_numbers(bytes: &mut [u8], geometry: Geometry)
    requires { Fits (length bytes.old) geometry }
    ensures { bytes.new ≡ all_patched bytes.old (blank_patches geometry.blocks geometry.pages geometry.life) }
{
    let blocks = geometry.blocks as usize;
    let all = geometry.blocks * geometry.pages;
    let pages = all as usize;
    put_number(bytes, 0, 3);
    put_number(bytes, 4, geometry.blocks);
    put_number(bytes, 8, geometry.pages);
    put_number(bytes, 12, geometry.life);
    put_number(bytes, 16, geometry.blocks);
    put_run(bytes, 20, 4 * blocks, 0);
    put_number(bytes, 20 + 4 * blocks, all);
    put_number(bytes, 24 + 4 * blocks + 4 * pages, all);
    put_number(bytes, 28 + 4 * blocks + 8 * pages, all);
}

// Makes the bytes the image of a blank chip that was never erased.
pub fn write_blank(bytes: &mut [u8], geometry: Geometry) -> Result<(), ImageFault>
    ensures answer { room_told geometry result ≡ room_checked (length bytes.old) geometry.blocks geometry.pages geometry.life }
    ensures after { bytes.new ≡ (if is_ok result then blank_image geometry.blocks geometry.pages geometry.life else bytes.old) }
    ensures accepted { OnOk result (checked bytes.new ≡ accepted geometry.blocks geometry.pages geometry.life) }
    ensures means { OnOk result (image_flash bytes.new ≡ blank_flash geometry.blocks geometry.pages geometry.life) }
    ensures verdict { Verdict (length bytes.old) geometry.blocks geometry.pages geometry.life }
{
    check_source(&Unwritten {
        size: bytes.len(),
        geometry,
    })?;
    bytes.fill(0xFF);
    put_numbers(bytes, geometry);
    Ok(())
}
