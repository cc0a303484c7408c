// The calls of the library for C, Rust and Python, which gaplinte_c exports: on records that the caller lends, each in its
// place. A plan record is an array of 1,408 numbers. The answer of a call is one number: its value, or minus the number
// with which it is refused, one of those in documents 01 and 02. A refused call leaves everything that it is lent as found.
#![tactic(auto)]

mod answers;
pub mod ask;
pub mod change;
pub mod image;
pub mod list;
pub mod order;
pub mod reason;
pub mod sheet;
pub mod show;
pub mod trial;
pub mod walk;
pub mod weave;
