// Path losses, required head, pump head and dictating section, over losses whoever worked them out.
#![tactic(auto)]

ghost use Rattle.std.specs.Prelude.{◌≡◌, ◌+◌, ◌≤◌, pos, ◌+ℤ◌};
ghost use Rattle.heads.specs.Steps.{Given};

use fields::{Job, Section};

/// Required head in cm, pump head in cm, and the dictating section.
#[derive(Clone, Copy)]
pub struct Heads {
    pub required: i32,
    pub pump: u32,
    pub dictating: u8,
}

// The greatest reach of the sections looked at, and the lowest of them that has it.
#[derive(Clone, Copy)]
struct Greatest {
    reach: i32,
    section: u8,
}

/// A job that keeps 3 and 5, with a loss of at most 4,259,775 cm for each section. The losses stand at the sections' places, in an array since a
/// call has no heap.
#[derive(Clone, Copy)]
pub struct JobWithLosses<'a> {
    pub job: &'a Job,
    pub losses: [u32; 64],
    pub ghost given: { Given job.now losses },
}

/// Elevation + free head + `more` at the end of a section; with its path loss that is the section's reach.
pub fn reach(s: Section, more: u32) -> i32
    requires { more ≤ 268365825 }
    ensures { result ≡ s.elevation +ℤ pos (s.free + more) }
{
    // A cast, as std has no `From` of 32 bits to as many with a sign; that the sum fits is proved.
    i32::from(s.elevation) + (u32::from(s.free) + more) as i32
}

impl JobWithLosses<'_> {
    ghost use Rattle.std.specs.Prelude.{◌<◌, get_or};
    ghost use Rattle.basis.specs.Sections.{path_of};
    ghost use Rattle.fields.specs.Fields.{count_of};
    ghost use Rattle.tree.specs.Tree.{parent_of};
    ghost use Rattle.heads.specs.Heads.{reach_of, greatest_to, required_of, pump_of, dictating_of};

    // The path loss of a section: the walk from it over its parents to the pump, one section at each turn. At the start of each turn `sum`
    // plus the path loss of section `at` is the path loss asked for: `AtTurn` (specs/Walk.antt).
    fn path_loss(&self, section: usize) -> u32
        requires { section ≤ count_of self.now.job.now }
        ensures { result ≡ path_of (parent_of self.now.job.now) (λ i. get_or self.now.losses i 0) section }
    {
        let mut sum = 0;
        let mut at = section;
        // No range: how many steps lead to the pump is known only at its end, as each goes to the parent.
        while 0 < at {
            sum += self.losses[at];
            at = usize::from(self.job.sections[at].parent);
        }
        sum
    }

    // The reach of a section with its path loss.
    fn reach_at(&self, section: u8) -> i32
        requires { (0 < section) × (section ≤ count_of self.now.job.now) }
        ensures { result ≡ reach_of self.now.job.now (λ i. get_or self.now.losses i 0) section }
    {
        let place = usize::from(section);
        reach(self.job.sections[place], self.path_loss(place))
    }

    // The greatest reach over all sections, and the lowest section that has it.
    fn dictating(&self) -> Greatest
        ensures { (result.reach ≡ greatest_to (count_of self.now.job.now) (reach_of self.now.job.now (λ i. get_or self.now.losses i 0)))
            × (result.section ≡ dictating_of self.now.job.now (λ i. get_or self.now.losses i 0)) }
    {
        let mut best = Greatest {
            reach: self.reach_at(1),
            section: 1,
        };
        // By hand: of equal reaches the first counts, which the clause of `max_by_key` does not say.
        for section in 2..=self.job.header.sections {
            let reach = self.reach_at(section);
            if best.reach < reach {
                best = Greatest { reach, section };
            }
        }
        best
    }

    /// Required head, pump head and dictating section.
    pub fn heads(&self) -> Heads
        ensures { (result.required ≡ required_of self.now.job.now (λ i. get_or self.now.losses i 0))
            × (result.pump ≡ pump_of self.now.job.now (λ i. get_or self.now.losses i 0))
            × (result.dictating ≡ dictating_of self.now.job.now (λ i. get_or self.now.losses i 0)) }
    {
        let best = self.dictating();
        let required = i32::from(self.job.header.meter) + best.reach;
        let over = required - i32::from(self.job.header.guaranteed);
        Heads {
            required,
            pump: over.max(0).unsigned_abs(),
            dictating: best.section,
        }
    }
}
