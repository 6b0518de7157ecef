// The flow call, and the duty call.
#![tactic(auto)]

mod pump;

ghost use Rattle.std.specs.Prelude.{◌≡◌, ◌≤◌, length};
ghost use Rattle.basis.specs.Stored.{stored};
ghost use Rattle.answer.specs.Answer.{number_of};
ghost use Rattle.answer.specs.Checks.{buffer_after};
ghost use Rattle.fields.specs.Fields.{count_of};
ghost use Rattle.record.specs.Record.{decode};
ghost use Rattle.flow.specs.Calls.{flow_length, house_bytes, flow_bytes, flow_no};

use acceptance::accept;
use answer::Refusal;
use demand::AcceptedJob;
pub use pump::duty;
use wire::Field;

// The house's hour, day and mean hour.
#[tactic(auto, using(basis::proofs::Stored::stored_next, wire::proofs::Fields::bytes_length), unfolding(crate::specs::Calls::house_bytes))]
fn put_house(out: &mut [u8], hour: u32, day: u32, mean: u32)
    requires { 12 ≤ length out.old }
    ensures { out.new ≡ stored out.old 0 (house_bytes hour day mean) }
{
    hour.put_at(out, 0);
    day.put_at(out, 4);
    mean.put_at(out, 8);
}

// The whole flow result.
#[tactic(auto, using(demand::proofs::Validity::valid_count))]
fn put_result(out: &mut [u8], accepted: &AcceptedJob)
    requires { flow_length (count_of accepted.now.job) ≤ length out.old }
    ensures { out.new ≡ stored out.old 0 (flow_bytes accepted.now.job) }
{
    let count = accepted.job.count();
    let flows = accepted.flows();
    put_house(out, accepted.hour(), accepted.day(), accepted.mean());
    wire::put_all(out, 12, &flows[1..=count]);
}

/// The flow call: hour, day, mean hour and S flows at the front of the buffer, or a number and the buffer as it was.
#[tactic(auto, using(crate::proofs::Ordering::flow_outcomes), unfolding(crate::specs::Calls::flow_no))]
pub fn flow(b: &[u8], out: &mut [u8]) -> Result<(), Refusal>
    ensures number { number_of result ≡ flow_no b.now (length out.old) }
    ensures buffer { out.new ≡ buffer_after (number_of result) (flow_bytes (decode b.now)) out.old }
{
    let accepted = accept(b)?;
    let count = accepted.job.count();
    if out.len() < 12 + 4 * count {
        return Err(Refusal::ResultShort);
    }
    put_result(out, &accepted);
    Ok(())
}
