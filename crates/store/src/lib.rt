// Sector stores: numbered sectors of 512 bytes, whatever keeps them.

#![tactic(auto)]

pub mod layered;
pub mod plain;
pub mod play;
pub mod spread;
pub mod store;
