// Blank chips in memory, the small module of two chips that the programs work on, and the layer that they lay over it.

#![tactic(auto)]

pub mod blank;
pub mod module;
