// A cheapest size for a section, read from its row.
ghost use Rattle.std.specs.Prelude.{◌≡◌, ◌+◌, ◌*◌, ◌≤◌, ◌<◌, length, MatchOption};
ghost use Rattle.plan.specs.Plan.{mark, least_to};
ghost use Rattle.rows.specs.Steps.{options_of};
ghost use Rattle.search.specs.Steps.{Picked};

use cells::get;
use nets::Tables;
use plan::MARK;
use rows::Row;

// What size t and all below cost at the head h, or the mark, which is above all costs, where it leaves its end too little. (In 64 bits: a cost and a cell may add up to more than 32 hold. No Option: a cell has the mark too, where nothing fits below, so that sums are held against it in any case.)
fn cost_at(ws: &[u8], tables: &Tables, row: Row, t: usize, h: usize) -> u64
    requires { (row.at + t < 832) × (row.need ≤ 4294967295)
        × (4 * (row.first + t * row.stride + row.high + 1) ≤ length ws.now) }
    ensures { result ≡ options_of row tables.now.losses tables.now.costs ws.now h t }
{
    // A row keeps its place, not the section's number, which `Tables::loss` and `cost` ask for.
    let at = row.at + t;
    let loss = tables.losses[at] as usize; // std has no `From` from 32 bits to a place
    if h < loss + row.need {
        return u64::from(MARK);
    }
    let k = row.first + t * row.stride + row.high.min(h - loss);
    u64::from(tables.costs[at]) + u64::from(get(ws, k))
}

/// A cheapest of the sizes at the head h, where one will do.
// The least is kept by hand: `min_by_key` gives a size without its cost, which would be worked out again to tell it from the mark.
pub fn cheapest(ws: &[u8], tables: &Tables, row: Row, h: usize) -> Option<usize>
    requires { (row.at + tables.now.sizes < 832) × (row.need ≤ 4294967295)
        × (4 * (row.first + tables.now.sizes * row.stride + row.high + 1) ≤ length ws.now) }
    ensures { let cost = options_of row tables.now.losses tables.now.costs ws.now h in
        MatchOption result (least_to tables.now.sizes cost ≡ mark) (Picked tables.now.sizes cost) }
{
    let mut best = u64::from(MARK);
    let mut size = None;
    for t in 1..=tables.sizes {
        let cost = cost_at(ws, tables, row, t, h);
        if cost < best {
            best = cost;
            size = Some(t);
        }
    }
    size
}
