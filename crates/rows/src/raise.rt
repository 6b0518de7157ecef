// A section is added to its parent's row.
// Casts from a table's 32 bits to a place: std has no `From` between them.
ghost use Rattle.std.specs.Prelude.{◌≡◌, true, false, ℕ, ◌+◌, ◌-◌, ◌*◌, ◌≤◌, ◌<◌, min, length, get_or, set};
ghost use Rattle.nets.specs.Tables.{top};
ghost use Rattle.plan.specs.Plan.{mark};
ghost use Rattle.cells.specs.Cells.{cell_at};
ghost use Rattle.rows.specs.Steps.{row_of, options_of, Offerable, Lowest, Flat};
ghost use Rattle.cells.specs.Steps.{Filled, standing};

use cells::{add, fresh, get, offer, place};
use nets::Tables;
use plan::MARK;
use std::ops::Range;

/// A section's row: from what its end needs to the most that it can use; where its sizes stand in the tables, and where the row starts in the workspace. The stride lays a row for each size apart (L9); at 0 the sizes share one row.
#[derive(Clone, Copy)]
pub struct Row {
    pub need: usize,
    pub high: usize,
    pub at: usize,
    pub first: usize,
    pub stride: usize,
}

impl Row {
    /// The heads of which it has the costs.
    pub fn heads(self) -> Range<usize>
        requires { self.high ≤ top }
        ensures { (result.start ≡ self.need) × (result.end ≡ self.high + 1) }
    {
        self.need..self.high + 1
    }
}

/// The row of section s: rows of head + 1 cells one after another, the pump's first.
pub fn row_of(needs: &[u32; 64], highs: &[usize; 64], head: usize, s: usize) -> Row
    requires { (s < 64) × (head ≤ 7000) }
    ensures { (result ≡ row_of needs.now highs.now head s) × (get_or needs.now s 0 ≤ 4294967295) }
{
    Row {
        need: needs[s] as usize,
        high: highs[s],
        at: s * 13,
        first: s * (head + 1),
        stride: 0,
    }
}

// From this head on the best cost is at most this.
#[derive(Clone, Copy)]
struct Level {
    head: usize,
    cost: u32,
}

impl Level {
    // Where a size that costs at least v need not be offered any more.
    fn stop(self, v: u32, end: usize) -> usize
        requires { self.head ≤ end }
        ensures { (result ≤ end) × (result < end → (self.head ≤ result) × (self.cost ≤ v)) }
    {
        if self.cost <= v { self.head } else { end }
    }
}

// Offers size t to the parent's heads after the sizes before it, unless it loses too much.
// Loss and cost are read by the row's place: a row does not keep the section's number, which `Tables::loss` and `cost` ask for.
fn offer_next(
    ws: &[u8],
    best: &mut [u32; 7001],
    tables: &Tables,
    row: Row,
    parent: Row,
    t: usize,
    level: Level,
) -> Level
    requires offerable { (0 < t) × Offerable row t parent.need (parent.high + 1) tables.now.costs ws.now }
    requires before { Lowest best.old parent.need (parent.high + 1) (t - 1) (options_of row tables.now.losses tables.now.costs ws.now)
        × Flat best.old parent.need (parent.high + 1) level.head level.cost }
    ensures lowest { Lowest best.new parent.need (parent.high + 1) t (options_of row tables.now.losses tables.now.costs ws.now) }
    ensures flat { Flat best.new parent.need (parent.high + 1) result.head result.cost }
{
    let end = parent.high + 1;
    let loss = tables.losses[row.at + t] as usize;
    if end <= loss + row.need {
        return level;
    }
    let first = row.first + t * row.stride;
    let cost = tables.costs[row.at + t];
    let least = get(ws, first + row.high) + cost;
    let start = parent.need.max(loss + row.need);
    offer(
        ws,
        best,
        first,
        row.high,
        loss,
        cost,
        start..level.stop(least, end),
    );
    Level {
        head: end.min(loss + row.high),
        cost: least,
    }
}

/// The best cost of a section's sizes at each of its parent's heads.
#[tactic(auto, using(plan::proofs::Least::least_none))]
pub fn bests(ws: &[u8], best: &mut [u32; 7001], tables: &Tables, row: Row, parent: Row)
    requires { Offerable row tables.now.sizes parent.need (parent.high + 1) tables.now.costs ws.now }
    ensures { Lowest best.new parent.need (parent.high + 1) tables.now.sizes (options_of row tables.now.losses tables.now.costs ws.now) }
{
    fresh(best, parent.heads());
    // No size is offered yet: a level past the last head stops none, whatever its cost.
    let mut level = Level {
        head: parent.high + 1,
        cost: MARK,
    };
    for t in 1..=tables.sizes {
        level = offer_next(ws, best, tables, row, parent, t, level);
    }
}

/// Adds the best costs to what stands in row p, or writes them there where nothing does yet.
pub fn hand_up(ws: &mut [u8], best: &[u32; 7001], begun: &mut [bool; 64], p: usize, row: Row)
    requires fits { (p < 64) × (row.high + 1 ≤ 7001) × (4 * (row.first + (row.high + 1)) ≤ length ws.old) }
    requires cells { get_or begun.old p false ≡ true → (h : ℕ) → row.need ≤ h → h < row.high + 1 → cell_at ws.old (row.first + h) ≤ mark }
    requires best { (h : ℕ) → row.need ≤ h → h < row.high + 1 → get_or best.now h 0 ≤ mark }
    ensures filled { Filled ws.old ws.new row.first row.need (row.high + 1)
        (λ h. min mark (standing (get_or begun.old p false) ws.old row.first h + get_or best.now h 0)) }
    ensures begun { begun.new ≡ set begun.old p true }
{
    if begun[p] {
        add(ws, best, row.first, row.heads());
    } else {
        place(ws, best, row.first, row.heads());
    }
    begun[p] = true;
}
