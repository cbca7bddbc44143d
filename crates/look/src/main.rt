// Looks at one chip image: reads it from standard input, and prints one line that says which chip it holds, or why it holds none.

#![tactic(auto)]

use image::report::{MOST_BYTES, look};
use input::read_input;

fn main(rt: HostRuntime) -> anyhow::Result<()> {
    let bytes = read_input(rt.alloc(), rt.stdin(), MOST_BYTES)?;
    rt.println(look(&bytes))?;
    Ok(())
}
