// A size read at a flow.
ghost use Rattle.std.specs.List.{concat};
ghost use Rattle.std.specs.Prelude.{◌≡◌, ◌-◌, ◌≤◌, ◌<◌, length};
ghost use Rattle.catalogue.specs.Layout.{rows_of, sizes_of, part_of, flow_at};
ghost use Rattle.catalogue.specs.Reading.{read_rows, served_of};
ghost use Rattle.catalogue.specs.Steps.{Rows, Above};

use crate::accepted::Catalogue;
use crate::layout::{row_at, row_before, row_flow, rows_at};

/// Velocity in mm/s and slope in mm per metre.
#[derive(Clone, Copy)]
pub struct Reading {
    pub velocity: u32,
    pub slope: u32,
}

// The first row whose flow is at least q, where the last one's is.
fn row_above(rows: &[[u8; 8]], q: u32) -> usize
    requires { Rows (concat rows.now) (length rows.now) × (q ≤ flow_at (concat rows.now) (length rows.now - 1)) }
    ensures { Above (concat rows.now) (length rows.now) q result }
{
    rows.partition_point(|row| row_flow(row) < q)
}

// Rows read at q, on the lines to the row above it from the row before that.
fn read_rows(rows: &[[u8; 8]], q: u32) -> Option<Reading>
    requires { Rows (concat rows.now) (length rows.now) }
    ensures { result ≡ served_of (read_rows (concat rows.now) (length rows.now) q) }
{
    if row_at(rows, rows.len() - 1).flow < q {
        return None;
    }
    let k = row_above(rows, q);
    let low = row_before(rows, k);
    let high = row_at(rows, k);
    Some(Reading {
        velocity: round::line_at(low.on_velocity(), high.on_velocity(), q),
        slope: round::line_at(low.on_slope(), high.on_slope(), q),
    })
}

impl Catalogue<'_> {
    /// Size s read at q.
    pub fn read_size(&self, s: usize, q: u32) -> Option<Reading>
        requires { (0 < s) × (s ≤ sizes_of self.now.bytes.now) }
        ensures { result ≡ served_of (read_rows (part_of self.now.bytes.now s) (rows_of self.now.bytes.now) q) }
    {
        read_rows(rows_at(self.bytes, s), q)
    }
}
