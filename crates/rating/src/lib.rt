// Rating: what a list of sizes gives an accepted job with an accepted catalogue.
#![tactic(auto)]

mod call;
mod sections;

pub use call::{Rating, losses, outcome, rate};
