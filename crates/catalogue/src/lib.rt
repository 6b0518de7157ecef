// The catalogue of sizes: its acceptance, and a size read at a flow.
#![tactic(auto)]

mod accepted;
mod layout;
mod reading;

pub use accepted::{Catalogue, accept};
pub use layout::{bore, price, sizes_of};
pub use reading::Reading;
