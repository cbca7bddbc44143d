// Command lines over sectors, and the runner that carries them out.

#![tactic(auto)]

pub mod command;
mod input;
pub mod respond;
pub mod runner;
mod scan;
