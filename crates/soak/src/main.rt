// A few thousand calls in no order, on several geometries, against a ledger that is kept beside the layer: a table of the last number
// written to each sector. Every read is compared, and at the end every sector is read back. No write of a sector may be refused, and the
// erases that the writes tell have to be those that the device counted, and no more than the bound allows.

#![tactic(auto)]

use anyhow::anyhow;
use chips::blank::blank_image;
use chips::module::layer_over;
use fast::fit::Plan;
use fast::layer::{Found, Layer};
use flash::chip::ImageChip;
use flash::device::{Device, SECTOR_SIZE};
use flash::join::Join;
use flash::numbers::{Block, Sector};
use image::shape::Geometry;
use std::alloc::Global;
use std::array;

// Each shape is two chips of `blocks` blocks, of which a layer is made.
#[derive(Clone, Copy)]
struct Shape {
    blocks: u32,
    pages: u32,
    logical: u32,
    random: u32,
}

const SHAPES: [Shape; 5] = [
    Shape {
        blocks: 3,
        pages: 2,
        logical: 1,
        random: 1,
    },
    Shape {
        blocks: 4,
        pages: 4,
        logical: 4,
        random: 2,
    },
    Shape {
        blocks: 8,
        pages: 3,
        logical: 10,
        random: 4,
    },
    Shape {
        blocks: 6,
        pages: 32,
        logical: 3,
        random: 7,
    },
    Shape {
        blocks: 10,
        pages: 5,
        logical: 2,
        random: 16,
    },
];

const CALLS: u32 = 3_000;

// What was counted on one shape: calls past the last sector that were refused, overwrites, erases that writes told, and what was wrong.
#[derive(Clone, Copy, Default)]
struct Tally {
    refused: u32,
    overwrites: u32,
    erases: u32,
    wrong: u32,
}

impl Tally {
    fn expect(&mut self, right: bool) {
        if !right {
            self.wrong = self.wrong.saturating_add(1);
        }
    }
}

// A linear congruential generator; the high bits of its state are used.
#[derive(Clone, Copy)]
struct Random(u64);

impl Random {
    fn next(&mut self, below: u32) -> u32 {
        self.0 = self
            .0
            .wrapping_mul(6_364_136_223_846_793_005)
            .wrapping_add(1_442_695_040_888_963_407);
        ((self.0 >> 33) as u32).checked_rem(below).unwrap_or(0)
    }
}

// The bytes that a number stands for: its four bytes, over and over.
fn content(number: u32) -> [u8; SECTOR_SIZE] {
    let four = number.to_le_bytes();
    array::from_fn(|i| four[i % 4])
}

// Whether a read of this sector gives what the ledger has for it.
fn agrees<D: Device>(layer: &Layer<D>, n: u32, line: Option<u32>) -> bool {
    let mut buffer = [1u8; SECTOR_SIZE];
    match (layer.read(Sector(n), &mut buffer), line) {
        (Ok(Found::Bytes), Some(number)) => buffer == content(number),
        (Ok(Found::NeverWritten), None) => buffer == [0xFF; SECTOR_SIZE],
        _ => false,
    }
}

// One sector past the last: a write and a read have to be refused.
fn try_past_end<D: Device>(layer: &mut Layer<D>, n: u32, tally: &mut Tally) {
    let mut buffer = [1u8; SECTOR_SIZE];
    if layer.write(Sector(n), &buffer).is_err() && layer.read(Sector(n), &mut buffer).is_err() {
        tally.refused = tally.refused.saturating_add(1);
    }
}

fn write<D: Device>(
    layer: &mut Layer<D>,
    n: u32,
    call: u32,
    line: &mut Option<u32>,
    tally: &mut Tally,
) {
    match layer.write(Sector(n), &content(call)) {
        Ok((erases, _)) => {
            if line.is_some() {
                tally.overwrites = tally.overwrites.saturating_add(1);
            }
            tally.erases = tally.erases.saturating_add(erases);
            *line = Some(call);
        }
        Err(_) => tally.expect(false),
    }
}

// One call: a write for two draws of three, else a read; one sector past the last is drawn too.
fn step<D: Device>(
    layer: &mut Layer<D>,
    ledger: &mut [Option<u32>],
    random: &mut Random,
    call: u32,
    tally: &mut Tally,
) {
    let n = random.next(layer.sectors().saturating_add(1));
    let writes = random.next(3) != 0;
    match ledger.get_mut(n as usize) {
        None => try_past_end(layer, n, tally),
        Some(line) if writes => write(layer, n, call, line, tally),
        Some(line) => tally.expect(agrees(layer, n, *line)),
    }
}

// How often the blocks of a device were erased, all together.
fn counted<D: Device>(device: &D) -> u32 {
    (0..device.blocks())
        .filter_map(|b| device.count(Block(b)).ok())
        .fold(0u32, |sum, count| sum.saturating_add(count))
}

// Format erased each block once; the rest are the erases that the writes told, at most w + w div P for w overwrites.
fn check_erases<D: Device>(device: &D, tally: &mut Tally) {
    let Tally {
        overwrites,
        erases,
        ..
    } = *tally;
    let pages = device.pages().max(1);
    tally.expect(counted(device) == erases.saturating_add(device.blocks()));
    tally.expect(erases <= overwrites.saturating_add(overwrites / pages));
}

fn soak<D: Device>(layer: &mut Layer<D>, ledger: &mut [Option<u32>]) -> Tally {
    let mut tally = Tally::default();
    let mut random = Random(1);
    for call in 0..CALLS {
        step(layer, ledger, &mut random, call, &mut tally);
    }
    for (n, line) in (0..layer.sectors()).zip(ledger.iter()) {
        tally.expect(agrees(layer, n, *line));
    }
    check_erases(layer.device(), &mut tally);
    tally
}

// A blank chip, whose blocks bear 100,000 erases.
fn blank_chip(heap: Global, blocks: u32, pages: u32) -> anyhow::Result<Vec<u8>> {
    let geometry = Geometry {
        blocks,
        pages,
        life: 100_000,
    };
    blank_image(heap, geometry).map_err(|_| anyhow!("no memory for the chips"))
}

fn run(rt: &HostRuntime, shape: Shape) -> anyhow::Result<()> {
    let Shape {
        blocks,
        pages,
        logical,
        random,
    } = shape;
    let mut left = blank_chip(rt.alloc(), blocks, pages)?;
    let mut right = blank_chip(rt.alloc(), blocks, pages)?;
    let device = Join::new(ImageChip::new(&mut left), ImageChip::new(&mut right));
    let plan = Plan {
        logical,
        random,
        first_stamp: 1,
    };
    let mut layer = layer_over(rt.alloc(), device, plan).map_err(|_| anyhow!(
        "no memory for the tables"
    ))?;
    let sectors = layer.sectors();
    let mut ledger = vec![in rt.alloc(); None; sectors as usize]?;
    let Tally { refused, wrong, .. } = soak(&mut layer, &mut ledger);
    println!(rt;
        "pages {pages} logical {logical} random {random}: sectors {sectors} calls {CALLS} refused {refused} wrong {wrong}"
    )?;
    Ok(())
}

fn main(rt: HostRuntime) -> anyhow::Result<()> {
    for shape in SHAPES {
        run(&rt, shape)?;
    }
    Ok(())
}
