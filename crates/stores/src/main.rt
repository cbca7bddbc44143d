// The same command lines on two stores: a plain one, and a spread of a plain one and a layer.
//
// Both have 16 sectors. The input has every way in which a line is refused, and what is barely accepted. The two outputs differ only in the
// counts of a write that makes the layer erase a block. The file `stdout` beside this crate was worked out by hand, not taken from a run.

#![tactic(auto)]

use anyhow::anyhow;
use chips::blank::blank_image;
use chips::module::{PLAN, layer_over};
use console::respond::{MOST_BYTES, respond};
use flash::chip::ImageChip;
use image::shape::Geometry;
use input::read_input;
use std::io::Write;
use store::plain::{PlainStore, SLOT_SIZE};
use store::spread::Spread;
use store::store::Store;

const GEOMETRY: Geometry = Geometry {
    blocks: 8,
    pages: 4,
    life: 100,
};

fn print_run<S: Store>(
    rt: &HostRuntime,
    name: &str,
    store: &mut S,
    input: &[u8],
) -> anyhow::Result<()> {
    let out = respond(rt.alloc(), store, input)?;
    rt.println(name)?;
    rt.stdout().write_all(&out)?;
    Ok(())
}

fn run_plain(rt: &HostRuntime, input: &[u8]) -> anyhow::Result<()> {
    let mut bytes = vec![in rt.alloc(); 0u8; 16 * SLOT_SIZE]?;
    print_run(rt, "plain", &mut PlainStore::new(&mut bytes), input)
}

fn run_spread(rt: &HostRuntime, input: &[u8]) -> anyhow::Result<()> {
    let mut image = blank_image(rt.alloc(), GEOMETRY).map_err(|_| anyhow!(
        "no memory for the chip"
    ))?;
    let layer = layer_over(rt.alloc(), ImageChip::new(&mut image), PLAN).map_err(|_| anyhow!(
        "no memory for the tables"
    ))?;
    let mut bytes = vec![in rt.alloc(); 0u8; 8 * SLOT_SIZE]?;
    let mut spread = Spread {
        left: PlainStore::new(&mut bytes),
        right: layer,
    };
    print_run(rt, "spread", &mut spread, input)
}

fn main(rt: HostRuntime) -> anyhow::Result<()> {
    let input = read_input(rt.alloc(), rt.stdin(), MOST_BYTES)?;
    run_plain(&rt, &input)?;
    run_spread(&rt, &input)
}
