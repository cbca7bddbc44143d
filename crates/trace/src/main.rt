// Shows the order in which the layer works: formats a small module under a recording device, writes a fixed list of sectors, and prints
// each program and erase that was asked of the device.
//
// The module is the join of a chip of 4 blocks and a window of 4 blocks, from block 1 on, on a chip of 5; 4 pages a block, life 100. The
// layer has 4 logical blocks, 2 random log blocks and first stamp 1. The file `stdout` beside this crate was made
// by a separate model of the steps, not taken from a run.

#![tactic(auto)]

use anyhow::{Context, anyhow};
use chips::blank::blank_image;
use chips::module::{LEFT, PLAN, RIGHT, layer_over, two_chips};
use fast::layer::Layer;
use flash::chip::ImageChip;
use flash::device::{Device, SECTOR_SIZE};
use flash::numbers::Sector;
use image::shape::Geometry;
use log::Log;
use operation::Operation;
use recorder::Recorder;
use std::alloc::Global;

mod log;
mod operation;
mod recorder;

// Every sector once, in order, and then twenty overwrites that take every way a write can go.
const WRITES: [u32; 36] = [
    0, 1, 2, 3, 4, 5, 6, 7, 8, 9, 10, 11, 12, 13, 14, 15, 4, 5, 9, 7, 8, 9, 9, 0, 1, 2, 3, 12, 5,
    6, 9, 10, 11, 1, 2, 3,
];

// The image of a blank chip.
fn chip_of(heap: Global, geometry: Geometry) -> anyhow::Result<Vec<u8>> {
    blank_image(heap, geometry).map_err(|_| anyhow!("no memory for the chips"))
}

fn write_all<D: Device>(layer: &mut Layer<D>) -> anyhow::Result<()> {
    for n in WRITES {
        layer
            .write(Sector(n), &[0; SECTOR_SIZE])
            .context("a write was refused")?;
    }
    Ok(())
}

fn print_all(rt: &HostRuntime, operations: &[Operation]) -> anyhow::Result<()> {
    for operation in operations {
        rt.println(*operation)?;
    }
    Ok(())
}

fn main(rt: HostRuntime) -> anyhow::Result<()> {
    let heap = rt.alloc();
    let mut left = chip_of(heap, LEFT)?;
    let mut right = chip_of(heap, RIGHT)?;
    let module = two_chips(ImageChip::new(&mut left), ImageChip::new(&mut right));
    let device = Recorder::new(module, Log::new(heap)?);
    let mut layer = layer_over(heap, device, PLAN).map_err(|_| anyhow!(
        "no memory for the tables"
    ))?;
    write_all(&mut layer)?;
    print_all(&rt, layer.device().operations())
}
