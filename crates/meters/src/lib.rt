// The list of meters: its rules, a meter's loss, and the meter that wins.
#![tactic(auto)]

ghost use Rattle.std.specs.Prelude.{◌≡◌, ◌≤◌, ◌<◌, unwrap_or, option_map, IfSome};
ghost use Rattle.meters.specs.Meters.{meter_at, meter_ok, meters_ok, meter_loss, most_loss, qualifies, winner_of};
ghost use Rattle.meters.specs.Steps.{better};

use wire::Field;

/// A meter: its form, the paper's type (1 vane, 2 turbine), its resistance in ten-thousandths of m per (l/s) squared, and service flow in l/h.
/// The form is the field as the list has it, which 17 may refuse: so it is a number.
#[derive(Clone, Copy, Debug, PartialEq, Eq)]
pub struct Meter {
    pub form: u8,
    pub resistance: u16,
    pub service: u16,
}

// The meter of five bytes.
impl From<&[u8; 5]> for Meter {
    ghost from_gives = { λ bytes meter. meter ≡ meter_at bytes.now 1 };

    #[tactic(auto, unfolding(crate::specs::Meters::meter_at))]
    fn from(bytes: &[u8; 5]) -> Meter {
        Meter {
            form: bytes[0],
            resistance: u16::at(bytes, 1),
            service: u16::at(bytes, 3),
        }
    }
}

#[tactic(auto, unfolding(crate::specs::Meters::meter_ok))]
fn meter_ok(m: Meter) -> bool
    ensures { result ≡ meter_ok m }
{
    (1..=2).contains(&m.form) && 1 <= m.resistance && 1 <= m.service
}

/// 17 finds nothing.
pub fn meters_ok(list: &[u8]) -> bool
    ensures { result ≡ meters_ok list.now }
{
    let (meters, rest) = list.as_chunks::<5>();
    (1..=8).contains(&meters.len())
        && rest.is_empty()
        && meters.iter().all(|bytes| meter_ok(Meter::from(bytes)))
}

// The most loss of a meter that qualifies.
#[tactic(auto, unfolding(crate::specs::Meters::most_loss))]
fn most_loss(m: Meter) -> u32
    ensures { result ≡ most_loss m }
{
    if m.form == 1 { 500 } else { 250 }
}

/// What a house draws: its design flow in ml/s and its mean hour in l/h. By the flow's bound a loss fits 32 bits.
#[derive(Clone, Copy)]
pub struct Draw {
    pub flow: u32,
    pub mean: u32,
    pub ghost small: { flow ≤ 137850 },
}

impl Draw {
    /// A meter's loss in cm. It stays under 12,454,000, which the field of a record does not hold.
    #[tactic(auto, using(crate::proofs::Qualifying::square_top, basis::proofs::Round::up_le), unfolding(crate::specs::Meters::meter_loss))]
    pub fn loss_of(self, m: Meter) -> u32
        ensures { result ≡ meter_loss m self.flow }
    {
        let flow = u64::from(self.flow);
        // std has no From from u64 to u32, which holds the loss.
        round::divide_up(u64::from(m.resistance) * flow * flow, 100000000) as u32
    }

    #[tactic(auto, unfolding(crate::specs::Meters::qualifies))]
    fn qualifies(self, m: Meter) -> bool
        ensures { result ≡ qualifies m self.flow self.mean }
    {
        self.loss_of(m) <= most_loss(m) && self.mean <= u32::from(m.service)
    }

    // The better of the best so far, a place with the loss there, and the meter at place t.
    #[tactic(auto, unfolding(crate::specs::Steps::better))]
    fn better(self, best: Option<(usize, u32)>, t: usize, m: Meter) -> Option<(usize, u32)>
        ensures { result ≡ better best t m self.flow self.mean }
    {
        let loss = self.loss_of(m);
        if self.qualifies(m) && best.is_none_or(|(_, least)| loss < least) {
            Some((t, loss))
        } else {
            best
        }
    }

    /// The place of the meter that wins, and its loss.
    pub fn winner(self, list: &[u8]) -> Option<(usize, u32)>
        ensures place { unwrap_or (option_map (λ best. best.0) result) 0 ≡ winner_of list.now self.flow self.mean }
        ensures named { IfSome result (λ best. (0 < best.0) × (best.1 ≡ meter_loss (meter_at list.now best.0) self.flow)) }
    {
        let (meters, _) = list.as_chunks::<5>();
        let mut best = None;
        // By hand: of equally small losses the first wins, which the clause of `min_by_key` does not say.
        for (i, bytes) in meters.iter().enumerate() {
            best = self.better(best, i + 1, Meter::from(bytes));
        }
        best
    }
}
