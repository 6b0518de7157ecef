// The heat call: what a hot line's water heater has to give.
#![tactic(auto)]

ghost use Rattle.std.specs.Prelude.{◌≡◌, ◌≤◌, length, cond, IfOk};
ghost use Rattle.basis.specs.Stored.{stored};
ghost use Rattle.answer.specs.Answer.{number_of};
ghost use Rattle.answer.specs.Checks.{buffer_after};
ghost use Rattle.fields.specs.Fields.{service_of};
ghost use Rattle.record.specs.Record.{decode};
ghost use Rattle.heating.specs.Heat.{watts_of, heat_ok};
ghost use Rattle.heating.specs.Calls.{heat_no, heat_bytes};

use acceptance::accept;
use answer::Refusal;
use demand::AcceptedJob;
use wire::Field;

// The service of a hot line.
const HOT: u8 = 2;

// Cold water's temperature in °C and a stated loss in watts, both in their ranges.
#[derive(Clone, Copy)]
struct Asked {
    t: u32,
    loss: u32,
    ghost cold: { t ≤ 30 },
    ghost lost: { loss ≤ 1000000 },
}

impl Asked {
    // 21: temperature and loss are in their ranges.
    #[tactic(auto, unfolding(crate::specs::Heat::heat_ok))]
    fn new(t: u32, loss: u32) -> Result<Asked, Refusal>
        ensures number { number_of result ≡ cond (heat_ok t loss) 0 21 }
        ensures same { IfOk result (λ asked. (asked.t ≡ t) × (asked.loss ≡ loss)) }
    {
        if t > 30 || loss > 1000000 {
            return Err(Refusal::HeatRange);
        }
        Ok(Asked { t, loss })
    }

    // The heat flow of so many l/h in watts. The litres are at most 66,583,560, the most that the day of any hot line can have, and so the
    // watts fit.
    #[tactic(auto, using(crate::proofs::HeatBounds::heat_top), unfolding(crate::specs::Heat::watts_of))]
    fn watts(self, litres: u32) -> u32
        requires { litres ≤ 66583560 }
        ensures { result ≡ watts_of litres self.t self.loss }
    {
        let degrees = 55 - u64::from(self.t);
        let heat = round::divide_up(116 * u64::from(litres) * degrees, 100);
        // std has no From from u64 to u32.
        (heat + u64::from(self.loss)) as u32
    }
}

// The mean hour's heat flow, then the greatest hour's.
#[tactic(auto, using(demand::proofs::DesignFlows::house_hour_top))]
fn put_result(out: &mut [u8], accepted: AcceptedJob, asked: Asked)
    requires { (service_of accepted.job ≡ 2) × (8 ≤ length out.old) }
    ensures { out.new ≡ stored out.old 0 (heat_bytes accepted.job asked.t asked.loss) }
{
    let mean = asked.watts(accepted.mean());
    let greatest = asked.watts(accepted.hour());
    mean.put_at(out, 0);
    greatest.put_at(out, 4);
}

/// The heat flows of the mean hour and of the greatest hour at the front of the buffer, or a number and the buffer as it was.
#[tactic(auto, using(crate::proofs::Ordering::outcomes), unfolding(crate::specs::Calls::heat_no))]
pub fn heat(b: &[u8], t: u32, loss: u32, out: &mut [u8]) -> Result<(), Refusal>
    ensures number { number_of result ≡ heat_no b.now t loss (length out.old) }
    ensures buffer { out.new ≡ buffer_after (number_of result) (heat_bytes (decode b.now) t loss) out.old }
{
    let accepted = accept(b)?;
    if accepted.job.header.service != HOT {
        return Err(Refusal::NotHot);
    }
    let asked = Asked::new(t, loss)?;
    if out.len() < 8 {
        return Err(Refusal::ResultShort);
    }
    put_result(out, accepted, asked);
    Ok(())
}
