// The workspace as cells of four bytes each, the low byte first: so that compiled code reads and writes several cells at once.
ghost use Rattle.std.specs.Prelude.{◌≡◌, ◌+◌, ◌*◌, ◌≤◌, length};
ghost use Rattle.nets.specs.Tables.{top};
ghost use Rattle.cells.specs.Cells.{cell_at, Written};

/// Cell k. (One call of std, which the clause ties to `cell_at`.)
#[tactic(auto, using(crate::proofs::Workspace::cell_read))]
pub fn get(ws: &[u8], k: usize) -> u32
    requires { 4 * k + 4 ≤ length ws.now }
    ensures { (result ≡ cell_at ws.now k) × (result ≤ top) }
{
    u32::from_le_bytes(ws.as_chunks::<4>().0[k])
}

/// Writes v to cell k. (Not by `as_chunks_mut`: std does not say what a slice ends as after it.)
#[tactic(auto, using(crate::proofs::Workspace::cell_written))]
pub fn put(ws: &mut [u8], k: usize, v: u32)
    requires { 4 * k + 4 ≤ length ws.old }
    ensures { Written ws.old ws.new k v }
{
    ws[4 * k..4 * k + 4].copy_from_slice(&v.to_le_bytes());
}
