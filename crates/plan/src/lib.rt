// The public calls on a plan. None has a `requires`: a record that is no tree counts as the empty plan, and each refusal has its number in document 01 or 02.
#![tactic(auto)]

pub mod ask;
pub mod change;
pub mod image;
mod lookup;
pub mod reason;
pub mod record;
pub mod round_trip;
pub mod sheet;
pub mod trial;
pub mod walker;
pub mod weave;
pub mod weave_then_ask;
