// Where the fields of a size and of a row stand.
ghost use Rattle.std.specs.Prelude.{◌≡◌, ◌+◌, ◌*◌, ◌≤◌, ◌<◌, length};
ghost use Rattle.std.specs.List.{concat};
ghost use Rattle.catalogue.specs.Layout.{sizes_of, rows_of, size_from, bore_of, price_of, part_of, flow_at};
ghost use Rattle.catalogue.specs.Steps.{Sized, row_at, row_before};

use round::Point;
use wire::Field;

/// The number of sizes, and of rows of each size.
pub fn sizes_of(cat: &[u8]) -> u8
    requires { 7 ≤ length cat.now }
    ensures { result ≡ sizes_of cat.now }
{
    cat[5]
}

pub fn rows_of(cat: &[u8]) -> u8
    requires { 7 ≤ length cat.now }
    ensures { result ≡ rows_of cat.now }
{
    cat[6]
}

// `Sized` is a clause and no type: `bore_of` and what stands beside it are of a whole catalogue and a number, and a type of one size's bytes would
// have to say which size it is.

/// Where size s begins, from 1.
pub fn size_from(cat: &[u8], s: usize) -> usize
    requires { Sized cat.now s }
    ensures { result ≡ size_from cat.now s }
{
    7 + (s - 1) * (4 + 8 * usize::from(rows_of(cat)))
}

/// The bore of size s in mm. Exported for L9, which compares bores.
#[tactic(auto, unfolding(crate::specs::Layout::bore_of))]
pub fn bore(cat: &[u8], s: usize) -> u16
    requires { Sized cat.now s }
    ensures { result ≡ bore_of cat.now s }
{
    u16::at(cat, size_from(cat, s))
}

/// The price of size s per metre.
#[tactic(auto, unfolding(crate::specs::Layout::price_of))]
pub fn price(cat: &[u8], s: usize) -> u16
    requires { Sized cat.now s }
    ensures { result ≡ price_of cat.now s }
{
    u16::at(cat, size_from(cat, s) + 2)
}

/// The rows of size s: a part of the catalogue that starts in its middle.
pub fn rows_at(cat: &[u8], s: usize) -> &[[u8; 8]]
    requires { Sized cat.now s }
    ensures part { concat result.now ≡ part_of cat.now s }
    ensures count { length result.now ≡ rows_of cat.now }
{
    let from = size_from(cat, s) + 4;
    let end = from + 8 * usize::from(rows_of(cat));
    cat[from..end].as_chunks::<8>().0
}

/// Flow in ml/s, velocity in mm/s and slope in mm per metre.
#[derive(Clone, Copy, Default)]
pub struct Row {
    pub flow: u32,
    pub velocity: u32,
    pub slope: u32,
}

impl Row {
    /// A point of the line of velocities.
    pub fn on_velocity(self) -> Point
        ensures { result ≡ record { x = self.flow; y = self.velocity } }
    {
        Point {
            x: self.flow,
            y: self.velocity,
        }
    }

    /// A point of the line of slopes.
    pub fn on_slope(self) -> Point
        ensures { result ≡ record { x = self.flow; y = self.slope } }
    {
        Point {
            x: self.flow,
            y: self.slope,
        }
    }
}

/// The flow of a row.
#[tactic(auto, unfolding(crate::specs::Layout::flow_at))]
pub fn row_flow(row: &[u8; 8]) -> u32
    ensures { result ≡ flow_at row.now 0 }
{
    u32::at(row, 0)
}

/// Row k of a part, from 0. No `From` of eight bytes: what stands in a row is defined of the whole part and k.
#[tactic(auto, using(crate::proofs::Chunks::flow_row, crate::proofs::Chunks::velocity_row, crate::proofs::Chunks::slope_row))]
pub fn row_at(rows: &[[u8; 8]], k: usize) -> Row
    requires { k < length rows.now }
    ensures { result ≡ row_at (concat rows.now) k }
{
    let row = &rows[k];
    Row {
        flow: row_flow(row),
        velocity: u32::from(u16::at(row, 4)),
        slope: u32::from(u16::at(row, 6)),
    }
}

/// The row before row k; before the first row the lines come from zero.
#[tactic(auto, unfolding(crate::specs::Steps::row_before))]
pub fn row_before(rows: &[[u8; 8]], k: usize) -> Row
    requires { k < length rows.now }
    ensures { result ≡ row_before (concat rows.now) k }
{
    if k == 0 {
        Row::default()
    } else {
        row_at(rows, k - 1)
    }
}
