// Design flows and demands of a job whose fields keep their rules.
#![tactic(auto)]

mod accepted;
mod day;
mod refusal;
mod sums;

pub use accepted::AcceptedJob;
pub use day::day_of;
pub use refusal::demand_refusal;
