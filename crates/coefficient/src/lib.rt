// Coefficient α of a sum of shares: 200,000 under the first key of Table 2, and otherwise read from it.
#![tactic(auto)]

mod table;

ghost use Rattle.std.specs.Prelude.{◌≡◌, ◌≤◌};
ghost use Rattle.coefficient.specs.Alpha.{alpha_of};
ghost use Rattle.coefficient.specs.Reached.{Reached};

use round::Point;
pub use table::table2;

// The first key of the table.
const FIRST_KEY: u32 = 15000;

// The place of the last key that is at most m.
fn place(m: u32) -> usize
    requires { 15000 ≤ m }
    ensures { Reached m result }
{
    table2().partition_point(|pair| pair.0 <= m) - 1
}

/// The coefficient of m.
#[tactic(auto, using(crate::proofs::Coefficient::alpha_low))]
pub fn alpha(m: u32) -> u32
    ensures { result ≡ alpha_of m }
{
    if m < FIRST_KEY {
        return 200000;
    }
    let table = table2();
    let i = place(m);
    let (x, y) = table[i];
    let low = Point { x, y };
    let Some(&(x, y)) = table.get(i + 1) else {
        return low.y;
    };
    round::line_at(low, Point { x, y }, m)
}
