// Choosing: the cheapest suitable sizes for an accepted job and an accepted catalogue.
#![tactic(auto)]

mod call;
mod cheapest;
mod ends;
mod options;

pub use call::choose;
