// A bench for the layer: carries out command lines from standard input on a small module, and prints what they give.
//
// The module is the join of a chip of 4 blocks and a window of 4 blocks, from block 1 on, on a chip of 5; 4 pages a block, life 100, no block
// erased yet. It is made anew for each run. The file `stdout` beside this crate was worked out by hand, not taken from a run.

#![tactic(auto)]

use anyhow::anyhow;
use console::respond::MOST_BYTES;
use fresh::respond_on_module;
use input::read_input;
use std::io::Write;

mod fresh;

fn main(rt: HostRuntime) -> anyhow::Result<()> {
    let input = read_input(rt.alloc(), rt.stdin(), MOST_BYTES)?;
    // what failed may be the images, the tables or the output: the error of `respond_on_module` does not tell
    let out = respond_on_module(rt.alloc(), &input).map_err(|_| anyhow!(
        "no memory for the module and its layer"
    ))?;
    rt.stdout().write_all(&out)?;
    Ok(())
}
