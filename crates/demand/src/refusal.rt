// Refusals 8 and 9.
ghost use Rattle.std.specs.Prelude.{◌≡◌, ℕ, ◌<◌, get_or};
ghost use Rattle.basis.specs.Range.{any_to};
ghost use Rattle.answer.specs.Answer.{number_of};
ghost use Rattle.answer.specs.Checks.{first_no};
ghost use Rattle.fields.specs.Fields.{count_of};
ghost use Rattle.tree.specs.Tree.{served_of, set_of, fixtures_below};
ghost use Rattle.tree.specs.Rows.{Counted};
ghost use Rattle.demand.specs.Demand.{m_of, needs_table_one, demand_checks, Valid};

use crate::sums::{hour_sums, sums_of};
use answer::Refusal;
use fields::Job;
use tree::Tree;

// The last m of table 2.
const LAST_M: u64 = 400000000;

// m over 100,000 × fixtures with at most 200 fixtures: then Table 1 of appendix 4 would apply, which is left out.
#[tactic(auto, unfolding(crate::specs::Demand::needs_table_one))]
fn needs_table_one(m: u64, fixtures: u64) -> bool
    ensures { result ≡ needs_table_one m fixtures }
{
    fixtures <= 200 && 100000 * fixtures < m
}

// Whether any section does.
fn section_needs_table_one(tree: &Tree, served: &[[u32; 12]; 64], sets: &[u64; 64]) -> bool
    requires counts { Counted tree.now.job.now served.now }
    requires sets { (i : ℕ) → i < 64 → get_or sets.now i 0 ≡ set_of tree.now.job.now i }
    ensures { result ≡ any_to (count_of tree.now.job.now)
        (λ i. needs_table_one (m_of tree.now.job.now (served_of tree.now.job.now i)) (fixtures_below tree.now.job.now i)) }
{
    // std's lemmas have chains over `a..b`, and none over `a..=b`.
    (1..tree.job.count() + 1).any(|i| {
        let sums = sums_of(tree, served, i);
        let fixtures = tree.fixtures_below(sets[i], i);
        needs_table_one(sums.m, fixtures)
    })
}

/// 8 and 9, of a job that 3 and 5 to 7 let pass. (`Valid` is a clause and no type: no other function asks for it.)
#[tactic(auto, using(crate::proofs::Validity::valid_rooted))]
pub fn demand_refusal(job: Job) -> Result<(), Refusal>
    requires { Valid job }
    ensures { number_of result ≡ first_no (demand_checks job) }
{
    let tree = Tree { job: &job };
    let served = tree.counts();
    let sets = tree.sets();
    let house = sums_of(&tree, &served, 0);
    let fixtures = tree.fixtures_below(sets[0], 0);
    let hour = hour_sums(&job);
    if LAST_M < house.m || LAST_M < hour.shares {
        return Err(Refusal::DemandOverTable);
    }
    if needs_table_one(house.m, fixtures)
        || section_needs_table_one(&tree, &served, &sets)
        || needs_table_one(hour.shares, fixtures)
    {
        return Err(Refusal::DemandOverFixtures);
    }
    Ok(())
}
