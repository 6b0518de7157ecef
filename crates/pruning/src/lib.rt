// Sizes that no cheapest list needs are taken out, and the needs are raised to what the sections below ask at least.
#![tactic(auto)]

mod sizes;

ghost use Rattle.std.specs.Prelude.{◌≡◌, ◌+◌, ◌≤◌, ◌<◌, ◌^◌, MatchOption, slice_index, slice_set};
ghost use Rattle.nets.specs.Net.{None as NoneSuits};
ghost use Rattle.nets.specs.NetIn.{net_in};
ghost use Rattle.pruning.specs.Steps.{Alike, Pruned, Raised};

use nets::Tables;
use sizes::{least_loss, trim};

// The pump's end needs nothing of its own.
fn free_pump(tables: &mut Tables)
    ensures alike { Alike tables.old tables.new }
    ensures losses { tables.new.losses ≡ tables.old.losses }
    ensures needs { tables.new.needs ≡ slice_set tables.old.needs 0 0 }
{
    tables.needs[0] = 0;
}

// The parent's end needs at least what section s needs at its end and loses.
fn raise(tables: &mut Tables, s: usize, least: u32)
    requires section { (0 < s) × (s ≤ tables.old.sections) }
    requires fits { least + slice_index tables.old.needs s < 2 ^ 32 }
    ensures { Raised tables.old tables.new s least }
{
    let p = usize::from(tables.parents[s]);
    tables.needs[p] = tables.needs[p].max(tables.needs[s] + least);
}

/// The tables with fewer sizes and greater needs, from the last section to the first. Where a section has no size left, no list suits.
pub fn prune(mut tables: Tables, head: usize) -> Option<Tables>
    requires { head ≤ 7000 }
    ensures { MatchOption result (NoneSuits (net_in tables) head) (Pruned tables head) }
{
    free_pump(&mut tables);
    for s in (1..=tables.sections).rev() {
        trim(&mut tables, head, s);
        let least = least_loss(&tables, s)?;
        raise(&mut tables, s, least);
    }
    Some(tables)
}
