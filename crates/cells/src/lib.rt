// The workspace as cells of four bytes each, and a row of best costs that is offered to and written to them.
#![tactic(auto)]

mod best;
mod cell;
mod write;

pub use best::{fresh, offer};
pub use cell::get;
pub use write::{add, place, settle};
