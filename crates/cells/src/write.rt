// The cells of a row, written from what its end needs to what it can use.
// Cell by cell: a part of the workspace would ask that the start be no higher than the end, and an empty row may need more than its end can use.
ghost use Rattle.std.specs.Prelude.{ℕ, ◌+◌, ◌*◌, ◌≤◌, ◌<◌, min, length, get_or};
ghost use Rattle.plan.specs.Plan.{mark};
ghost use Rattle.cells.specs.Cells.{cell_at};
ghost use Rattle.cells.specs.Steps.{Filled};

use crate::cell::{get, put};
use plan::MARK;
use std::ops::Range;

/// Adds the best costs to the cells from up + heads.start to up + heads.end. A sum with the mark stops at the mark.
pub fn add(ws: &mut [u8], best: &[u32; 7001], up: usize, heads: Range<usize>)
    requires fits { (heads.end ≤ 7001) × (4 * (up + heads.end) ≤ length ws.old) }
    requires cells { (h : ℕ) → heads.start ≤ h → h < heads.end → cell_at ws.old (up + h) ≤ mark }
    ensures { Filled ws.old ws.new up heads.start heads.end
        (λ h. min mark (cell_at ws.old (up + h) + get_or best.now h 0)) }
{
    for h in heads {
        let old = get(ws, up + h);
        put(ws, up + h, best[h].min(MARK - old) + old);
    }
}

/// Writes the best costs to those cells.
pub fn place(ws: &mut [u8], best: &[u32; 7001], up: usize, heads: Range<usize>)
    requires { (heads.end ≤ 7001) × (4 * (up + heads.end) ≤ length ws.old) }
    ensures { Filled ws.old ws.new up heads.start heads.end (λ h. get_or best.now h 0) }
{
    for h in heads {
        put(ws, up + h, best[h]);
    }
}

/// Writes 0 to those cells.
pub fn settle(ws: &mut [u8], up: usize, heads: Range<usize>)
    requires { (heads.end ≤ 7001) × (4 * (up + heads.end) ≤ length ws.old) }
    ensures { Filled ws.old ws.new up heads.start heads.end (λ h. 0) }
{
    for h in heads {
        put(ws, up + h, 0);
    }
}
