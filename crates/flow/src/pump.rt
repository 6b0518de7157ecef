// The duty call: what the pump set has to deliver.
ghost use Rattle.std.specs.Prelude.{◌≡◌, length};
ghost use Rattle.answer.specs.Answer.{number_of};
ghost use Rattle.answer.specs.Checks.{buffer_after};
ghost use Rattle.record.specs.Record.{decode};
ghost use Rattle.flow.specs.Calls.{duty_no, duty_bytes};

use acceptance::accept;
use answer::Refusal;
use wire::Field;

/// The house's design flow at the front of the buffer, or a number and the buffer as it was.
#[tactic(auto, using(crate::proofs::Ordering::duty_outcomes), unfolding(crate::specs::Calls::duty_bytes, crate::specs::Calls::duty_no))]
pub fn duty(b: &[u8], out: &mut [u8]) -> Result<(), Refusal>
    ensures number { number_of result ≡ duty_no b.now (length out.old) }
    ensures buffer { out.new ≡ buffer_after (number_of result) (duty_bytes (decode b.now)) out.old }
{
    let accepted = accept(b)?;
    if out.len() < 4 {
        return Err(Refusal::ResultShort);
    }
    accepted.house_flow().put_at(out, 0);
    Ok(())
}
