// What the end of each section needs.
ghost use Rattle.std.specs.Prelude.{◌≡◌, true, ◌+◌, pos, ◌+ℤ◌};
ghost use Rattle.rules.specs.Rules.{elevation_ok};
ghost use Rattle.choosing.specs.Steps.{shift, NeedsOf};

use demand::AcceptedJob;
use fields::Section;

// Elevation + free head + 1,000, so that it is not negative.
#[tactic(auto, using(crate::proofs::Shifted::shifted))]
fn need(s: Section) -> u32
    requires { elevation_ok s.elevation ≡ true }
    ensures { pos result ≡ s.elevation +ℤ pos (s.free + shift) }
{
    heads::reach(s, 1000).unsigned_abs()
}

/// What the end of each section needs, at the section's place, in an array since a call has no heap.
pub fn needs_of(accepted: &AcceptedJob) -> [u32; 64]
    ensures { NeedsOf accepted.now.job result }
{
    let job = &accepted.job;
    let mut needs = [0u32; 64];
    // A loop, as `from_fn` would have to test at each of the 64 places whether a section has it.
    for i in 1..=job.count() {
        needs[i] = need(job.sections[i]);
    }
    needs
}
