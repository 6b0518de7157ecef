// The meter call: the meter of least loss from a list, put into the job.
#![tactic(auto)]

ghost use Rattle.std.specs.Prelude.{◌≡◌, ◌∷◌, ◌+◌, ◌≤◌, length};
ghost use Rattle.basis.specs.Stored.{stored};
ghost use Rattle.answer.specs.Answer.{number_of};
ghost use Rattle.answer.specs.Checks.{buffer_after};
ghost use Rattle.record.specs.Edited.{meter_place, edited};
ghost use Rattle.metering.specs.Calls.{meter_length, meter_no, meter_bytes};

use acceptance::accept;
use answer::Refusal;
use meters::Draw;

// The place, then the record with the loss in its meter loss field.
fn put_result(out: &mut [u8], place: usize, b: &[u8], loss: u32)
    requires { (place ≤ 8) × (loss ≤ 500) × (meter_place + 2 ≤ length b.now) × (meter_length (length b.now) ≤ length out.old) }
    ensures { out.new ≡ stored out.old 0 (place ∷ edited 2 b.now meter_place loss) }
{
    // std has no From to fewer bits; the clause says that both fit.
    out[0] = place as u8;
    encoding::put_edited(out, 1, b, record::METER, loss as u16);
}

/// The place of the meter that wins and the job record with its loss at the front of the buffer, or a number and the buffer as it was.
#[tactic(auto, using(demand::proofs::DesignFlows::house_flow_top, crate::proofs::Ordering::refusals))]
pub fn meter(b: &[u8], meters: &[u8], out: &mut [u8]) -> Result<(), Refusal>
    ensures number { number_of result ≡ meter_no b.now meters.now (length out.old) }
    ensures buffer { out.new ≡ buffer_after (number_of result) (meter_bytes b.now meters.now) out.old }
{
    let accepted = accept(b)?;
    if !meters::meters_ok(meters) {
        return Err(Refusal::MeterList);
    }
    if out.len() <= b.len() {
        return Err(Refusal::ResultShort);
    }
    let draw = Draw {
        flow: accepted.house_flow(),
        mean: accepted.mean(),
    };
    let (place, loss) = draw.winner(meters).ok_or(Refusal::NoMeter)?;
    put_result(out, place, b, loss);
    Ok(())
}
