// The image of a plan (document 02, Ask 9): writing that of a legal record into lent bytes, and reading one.
#![tactic(auto)]

mod bytes;
mod part;
pub mod read;
pub mod write;
