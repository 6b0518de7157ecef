// The rows of the workspace: for the pump and for each section the least cost of all that hangs below its end, at each head there.
#![tactic(auto)]

mod filling;
mod raise;

pub use filling::Rows;
pub use raise::{Row, row_of};
