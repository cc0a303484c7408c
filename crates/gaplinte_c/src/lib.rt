// The library for C, Rust and Python: gaplinte's calls, under the names and with the contracts that they have there. No
// crate builds on a static library, so the calls themselves stand in gaplinte.
#![tactic(auto)]

pub mod ask;
pub mod change;
pub mod image;
pub mod list;
pub mod order;
pub mod reason;
pub mod sheet;
pub mod show;
pub mod trial;
pub mod walk;
pub mod weave;
