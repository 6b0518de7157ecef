// The most head that each section's end can use.
// Casts from a table's 32 bits to a place: std has no `From` between them.
ghost use Rattle.std.specs.Prelude.{◌≤◌, ◌<◌, slice_index, EachIndex};
ghost use Rattle.nets.specs.Tables.{top};
ghost use Rattle.nets.specs.NetIn.{net_in};
ghost use Rattle.plan.specs.Plan.{Usable};

use nets::{TOP, Tables};

// The greatest of the losses that may be taken. (The mark is looked for: it is more than all of these, so that it would be the greatest.)
fn greatest_of(losses: &[u32]) -> u32
    ensures { EachIndex losses.now (λ k. slice_index losses.now k < top → slice_index losses.now k ≤ result) }
{
    losses
        .iter()
        .map(|l| if *l < TOP { *l } else { 0 })
        .max()
        .unwrap_or(0)
}

/// From the last section to the first: what its end needs, and what the ends below can use plus what is lost on the way there, but no more than the pump's head. (Fixed memory: a place for each of 64 ends, found by number.)
pub fn high_of(tables: &Tables, head: usize) -> [usize; 64]
    requires { head ≤ 7000 }
    ensures { Usable (net_in tables.now) head (λ s. slice_index result s) }
{
    let mut highs = [0usize; 64];
    for s in (1..=tables.sections).rev() {
        let high = highs[s].max(head.min(tables.needs[s] as usize));
        highs[s] = high;
        let p = usize::from(tables.parents[s]);
        let most = greatest_of(tables.losses_of(s)) as usize;
        highs[p] = highs[p].max(head.min(high + most));
    }
    highs[0] = highs[0].max(head.min(tables.needs[0] as usize));
    highs
}
