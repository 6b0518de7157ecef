// The cheapest suitable list of an accepted job with an accepted catalogue.
ghost use Rattle.std.specs.Prelude.{List, ℕ, ◌≤◌, length, take, MatchOption};
ghost use Rattle.fields.specs.Fields.{count_of};
ghost use Rattle.nets.specs.NetIn.{net_in};
ghost use Rattle.choosing.specs.Suitable.{SuitableAt};
ghost use Rattle.choosing.specs.Calls.{work_length};
ghost use Rattle.choosing.specs.Steps.{Least, TreeOf};

use crate::ends::needs_of;
use crate::options::put_options;
use catalogue::Catalogue;
use demand::AcceptedJob;
use nets::Tables;
use search::Choice;

// The tree of a job's sections, and what each of the catalogue's sizes loses and costs there. No heap: the tables are on the stack.
#[tactic(auto, using(demand::proofs::Validity::valid_count))]
fn tables_of(accepted: &AcceptedJob, catalogue: &Catalogue) -> Tables
    ensures { TreeOf accepted.now.job catalogue.now.bytes.now (net_in result) }
{
    let job = &accepted.job;
    let mut losses = [0u32; 832];
    let mut costs = [0u32; 832];
    put_options(accepted, catalogue, &mut losses, &mut costs);
    Tables {
        sections: job.count(),
        sizes: usize::from(catalogue.sizes()),
        parents: tree::parents_of(*job),
        needs: needs_of(accepted),
        losses,
        costs,
    }
}

/// A cheapest list that suits at a delivered head, if one does, found over the lent workspace. Heads of the search are 1,000 cm more than the job's, so that none is negative.
#[tactic(auto, using(rules::proofs::HeaderBounds::header_in))]
pub fn cheapest(
    accepted: &AcceptedJob,
    catalogue: &Catalogue,
    delivered: usize,
    work: &mut [u8],
) -> Option<Choice>
    requires { (delivered ≤ 6000) × (work_length (count_of accepted.now.job) delivered ≤ length work.old) }
    ensures { MatchOption result ((y : List ℕ) → SuitableAt accepted.now.job catalogue.now.bytes.now delivered y → ⊥)
        (λ c. Least accepted.now.job catalogue.now.bytes.now delivered c.cost (take (count_of accepted.now.job) c.sizes)) }
{
    let meter = usize::from(accepted.job.header.meter);
    let head = delivered + 1000 - meter;
    search::choose(work, tables_of(accepted, catalogue), head)
}
