// The shape of a chip: how many blocks it has, how many pages each, and how many erases a block takes.

ghost use Rattle.std.specs.Prelude.{◌≡◌};
ghost use Rattle.image.specs.Shape.{ranged, image_room};

// The most that an image may state; each is at least 1.
pub const MOST_BLOCKS: u32 = 4_096;

pub const MOST_PAGES: u32 = 64;

pub const MOST_LIFE: u32 = 100_000;

// The bytes of a page.
pub const PAGE_SIZE: usize = 512;

#[derive(Clone, Copy, PartialEq, Eq, Debug)]
pub struct Geometry {
    pub blocks: u32,
    pub pages: u32,
    pub life: u32,
}

impl Geometry {
    // Whether an image may state it.
    pub fn in_range(self) -> bool
        ensures { result ≡ ranged self.blocks self.pages self.life }
    {
        (1..=MOST_BLOCKS).contains(&self.blocks)
            && (1..=MOST_PAGES).contains(&self.pages)
            && (1..=MOST_LIFE).contains(&self.life)
    }

    // How long its image is, where there is one.
    pub fn image_length(self) -> Option<usize>
        ensures { result ≡ image_room self.blocks self.pages self.life }
    {
        if !self.in_range() {
            return None;
        }
        let blocks = self.blocks as usize;
        let pages = self.pages as usize;
        Some(32 + 4 * blocks + 520 * (blocks * pages))
    }
}
