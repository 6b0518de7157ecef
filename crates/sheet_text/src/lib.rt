// The text of the sheet.
#![tactic(auto)]

mod input;

pub use input::sheet;
