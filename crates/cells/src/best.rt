// A row of best costs at each head, to which the sizes of a section are offered one after another.
// The heads go beside the whole row: in a part of it a place would no longer be the head that the cells are found by.
// A cost where nothing fits is the mark, as in the cells of four bytes, between which and the row costs go to and fro: an Option would be turned into it at each head.
ghost use Rattle.std.specs.Prelude.{◌≡◌, ℕ, ◌+◌, ◌-◌, ◌*◌, ◌≤◌, ◌<◌, min, length, get_or};
ghost use Rattle.nets.specs.Tables.{top};
ghost use Rattle.plan.specs.Plan.{mark};
ghost use Rattle.cells.specs.Cells.{cell_at};
ghost use Rattle.cells.specs.Steps.{Offered};

use crate::cell::get;
use plan::MARK;
use std::ops::Range;

/// The mark at each of the heads. (A loop: `fill` of a part would ask that the start be no higher than the end, and an empty row may need more than its end can use.)
pub fn fresh(best: &mut [u32; 7001], heads: Range<usize>)
    requires { heads.end ≤ 7001 }
    ensures { (length best.new ≡ 7001) × ((h : ℕ) → heads.start ≤ h → h < heads.end → get_or best.new h 0 ≡ mark) }
{
    for h in heads {
        best[h] = MARK;
    }
}

// Offers a size at each of the heads, with the cells of its row.
fn offer_row(
    ws: &[u8],
    best: &mut [u32; 7001],
    row: usize,
    loss: usize,
    cost: u32,
    heads: Range<usize>,
)
    requires fits { (loss ≤ heads.start) × (heads.end ≤ 7001) × (4 * (row + (heads.end - loss)) ≤ length ws.now) × (cost ≤ 50000000) }
    requires cells { (h : ℕ) → heads.start ≤ h → h < heads.end → cell_at ws.now (row + (h - loss)) ≤ mark }
    ensures { Offered best.old best.new heads.start heads.end (λ h. cost + cell_at ws.now (row + (h - loss))) }
{
    for h in heads {
        best[h] = best[h].min(get(ws, row + (h - loss)) + cost);
    }
}

// Offers one cost at each of the heads. (A loop of its own: the one above reads a cell at each head, while here one cell, read once, stands for all.)
fn offer_flat(best: &mut [u32; 7001], cost: u32, heads: Range<usize>)
    requires { heads.end ≤ 7001 }
    ensures { Offered best.old best.new heads.start heads.end (λ h. cost) }
{
    for h in heads {
        best[h] = best[h].min(cost);
    }
}

/// Offers a size at each of the heads: its row goes to high, and the last cell stands for all above.
pub fn offer(
    ws: &[u8],
    best: &mut [u32; 7001],
    row: usize,
    high: usize,
    loss: usize,
    cost: u32,
    heads: Range<usize>,
)
    requires fits { (loss ≤ heads.start) × (loss ≤ top) × (high ≤ top) × (heads.end ≤ 7001)
        × (4 * (row + high + 1) ≤ length ws.now) × (cost ≤ 50000000) }
    requires cells { (h : ℕ) → heads.start ≤ h → h < heads.end → cell_at ws.now (row + min (h - loss) high) ≤ mark }
    ensures { Offered best.old best.new heads.start heads.end (λ h. cost + cell_at ws.now (row + min (h - loss) high)) }
{
    let mid = heads.end.min(loss + high + 1);
    offer_row(ws, best, row, loss, cost, heads.start..mid);
    let rest = heads.start.max(mid);
    if rest < heads.end {
        offer_flat(best, get(ws, row + high) + cost, rest..heads.end);
    }
}
