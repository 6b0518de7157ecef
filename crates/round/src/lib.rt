// Division rounded up, and the straight line between two points.
#![tactic(auto)]

ghost use Rattle.std.specs.Prelude.{◌≡◌, ◌+◌, ◌^◌, ◌≤◌, ◌<◌};
ghost use Rattle.basis.specs.Round.{up, line};
ghost use Rattle.round.specs.Piece.{Piece};

/// A point that a line goes through.
#[derive(Clone, Copy, Debug, PartialEq, Eq)]
pub struct Point {
    pub x: u32,
    pub y: u32,
}

/// a / b, up.
pub fn divide_up(a: u64, b: u64) -> u64
    requires { (0 < b) × (a + b ≤ 2 ^ 64) }
    ensures { result ≡ up a b }
{
    a.div_ceil(b)
}

/// The straight line from a point to another at x, up.
#[tactic(auto, using(crate::proofs::Piecewise::piece_sum), unfolding(basis::specs::Round::line))]
pub fn line_at(low: Point, high: Point, x: u32) -> u32
    requires { Piece low.x low.y high.x high.y x }
    ensures { result ≡ line low.x low.y high.x high.y x }
{
    let rise = u64::from(high.y - low.y);
    let run = u64::from(high.x - low.x);
    let far = u64::from(x - low.x);
    // std has no From from u64 to u32; at x the line has risen by no more than `rise`.
    low.y + divide_up(rise * far, run) as u32
}
