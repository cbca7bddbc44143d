// The sector layer: a FAST translation layer over one device, every step of it proved to be the scheme's.
//
// `layer` has the calls; `fit` says which devices bear a layer; `roles` says how the role of a block may change. What stands behind the
// calls is private: `tables` is what the layer knows, `steps` is what a write does, `start` makes the tables that format leaves, and
// `wear` is the check that keeps every block within its life.

#![tactic(auto)]

pub mod fit;
pub mod layer;
pub mod numbers;
pub mod refusal;
pub mod replay;
pub mod roles;
pub mod sectors;
mod start;
mod steps;
mod tables;
mod wear;
