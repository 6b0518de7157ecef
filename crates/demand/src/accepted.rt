// A job that every check let pass, with its house's hour and mean hour and its design flows.
ghost use Rattle.std.specs.Prelude.{◌≡◌, ◌+◌, ◌*◌, ◌≤◌, ◌<◌, max};
ghost use Rattle.basis.specs.Round.{up};
ghost use Rattle.basis.specs.Slots.{slots};
ghost use Rattle.coefficient.specs.Alpha.{alpha_of};
ghost use Rattle.demand.specs.Demand.{Accepted};

use crate::day::day_of;
use crate::sums::{Sums, hour_sums, sums_of};
use fields::Job;
use tree::Tree;

/// A job that every check up to 9 let pass.
#[derive(Clone, Copy)]
pub struct AcceptedJob {
    pub job: Job,
    pub ghost accepted: { Accepted job },
}

// The design flow of sums that 8 let pass: document 01's value, and never less than one tap.
fn flow(s: Sums) -> u32
    requires { (0 < s.m) × (s.m ≤ 400000000) × (s.weighted ≤ 30 * s.m) × (s.tap ≤ 300) }
    ensures { result ≡ max (up (s.weighted * alpha_of s.m) (20000 * s.m)) s.tap }
{
    // Casts: std has no `From` from 64 to 32 bits.
    let alpha = u64::from(coefficient::alpha(s.m as u32));
    let average = round::divide_up(s.weighted * alpha, 20000 * s.m);
    average.max(s.tap) as u32
}

impl AcceptedJob {
    ghost use Rattle.fields.specs.Fields.{count_of};
    ghost use Rattle.demand.specs.Demand.{section_flow, house_flow, hour_of, day_of, mean_of};

    /// The flow of each section, at the section's place. (64 places whatever S is: there is no heap.)
    #[tactic(auto, using(crate::proofs::Validity::valid_rooted, crate::proofs::Validity::valid_count, crate::proofs::Totals::m_pos, crate::proofs::Totals::section_m_top, crate::proofs::DesignFlows::flow_asks))]
    pub fn flows(&self) -> [u32; 64]
        ensures { result ≡ slots 64 1 (count_of self.now.job + 1) 0 (section_flow self.now.job) }
    {
        let tree = Tree { job: &self.job };
        let served = tree.counts();
        let mut flows = [0; 64];
        // A loop, as `from_fn` would have to test at each of the 64 places whether a section has it.
        for i in 1..=self.job.count() {
            flows[i] = flow(sums_of(&tree, &served, i));
        }
        flows
    }

    /// The house's design flow, which the pump set delivers.
    #[tactic(auto, using(crate::proofs::Validity::valid_rooted, crate::proofs::Deciding::house_m, crate::proofs::Totals::house_m_pos, crate::proofs::Totals::house_m_top, crate::proofs::DesignFlows::flow_asks))]
    pub fn house_flow(&self) -> u32
        ensures { result ≡ house_flow self.now.job }
    {
        let tree = Tree { job: &self.job };
        let served = tree.counts();
        flow(sums_of(&tree, &served, 0))
    }

    /// The flow of the greatest hour in l/h.
    #[tactic(auto, using(crate::proofs::Totals::hour_sum_top, crate::proofs::DesignFlows::house_hour_top), unfolding(crate::specs::Demand::hour_of))]
    pub fn hour(&self) -> u32
        ensures { result ≡ hour_of self.now.job }
    {
        let sums = hour_sums(&self.job);
        // Casts: std has no `From` from 64 to 32 bits.
        let alpha = u64::from(coefficient::alpha(sums.shares as u32));
        round::divide_up(sums.weighted * alpha, 200000 * sums.shares) as u32
    }

    /// The greatest day in litres.
    pub fn day(&self) -> u32
        ensures { result ≡ day_of self.now.job }
    {
        day_of(self.job)
    }

    /// The mean hour in l/h.
    #[tactic(auto, using(crate::proofs::Validity::valid_head, crate::proofs::Tops::mean_top), unfolding(crate::specs::Demand::mean_of))]
    pub fn mean(&self) -> u32
        ensures { result ≡ mean_of self.now.job }
    {
        let day = u64::from(self.day());
        let hours = u64::from(self.job.header.hours);
        // A cast: std has no `From` from 64 to 32 bits.
        round::divide_up(day, hours) as u32
    }
}
