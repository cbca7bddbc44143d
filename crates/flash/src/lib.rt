// Raw NAND flash devices: what one means, and three kinds of them.

#![tactic(auto)]

pub mod blank;
pub mod chip;
pub mod device;
pub mod join;
pub mod numbers;
mod patch;
pub mod readback;
pub mod window;
