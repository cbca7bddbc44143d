// The format of chip images: their check, and what the program `look` says of one.

#![tactic(auto)]

pub mod check;
pub mod fault;
mod read;
pub mod report;
pub mod shape;
pub mod source;
