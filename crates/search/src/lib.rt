// The cheapest sizes for the sections of a tree, over a lent workspace.
#![tactic(auto)]

mod pick;
mod recover;
mod usable;

ghost use Rattle.std.specs.Prelude.{◌+◌, ◌*◌, ◌≤◌, length, take, slice_index, MatchOption};
ghost use Rattle.nets.specs.Net.{Found, None as NoneSuits};
ghost use Rattle.nets.specs.NetIn.{net_in};

use cells::get;
use nets::Tables;
use plan::MARK;
use pruning::prune;
use recover::recover;
use rows::Rows;
use usable::high_of;

/// A list of least cost: the cost, and its sizes, section s at place s - 1. (Fixed memory: places for 63 sections, found by number.)
#[derive(Clone, Copy)]
pub struct Choice {
    pub cost: u32,
    pub sizes: [u8; 63],
}

// A list of least cost for tables in which the pump's end needs no more than its head, if one suits.
fn cheapest_list(ws: &mut [u8], tables: &Tables, head: usize) -> Option<Choice>
    requires pump { slice_index tables.now.needs 0 ≤ head }
    requires room { (head ≤ 7000) × (4 * ((tables.now.sections + 1) * (head + 1)) ≤ length ws.old) }
    ensures { MatchOption result (NoneSuits (net_in tables.now) head)
        (λ c. Found (net_in tables.now) head c.cost (take tables.now.sections c.sizes)) }
{
    let highs = high_of(tables, head);
    let rows = Rows {
        tables,
        highs,
        head,
    };
    rows.fill(ws);
    let cost = get(ws, rows.highs[0]);
    if cost == MARK {
        return None;
    }
    let sizes = recover(ws, &rows);
    Some(Choice { cost, sizes })
}

/// A list of least cost, or none exactly when no list suits, whatever the workspace held. The workspace has a row of head + 1 cells for the pump and for each section.
pub fn choose(ws: &mut [u8], tables: Tables, head: usize) -> Option<Choice>
    requires { (head ≤ 7000) × (4 * ((tables.sections + 1) * (head + 1)) ≤ length ws.old) }
    ensures { MatchOption result (NoneSuits (net_in tables) head)
        (λ c. Found (net_in tables) head c.cost (take tables.sections c.sizes)) }
{
    let pruned = prune(tables, head)?;
    cheapest_list(ws, &pruned, head)
}
