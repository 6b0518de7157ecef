// The choosing call.
ghost use Rattle.std.specs.Prelude.{◌≡◌, ◌++◌, ◌+◌, ◌≤◌, length};
ghost use Rattle.basis.specs.Stored.{stored};
ghost use Rattle.answer.specs.Answer.{number_of};
ghost use Rattle.wire.specs.Wire.{bytes_of};
ghost use Rattle.choosing.specs.Calls.{choose_length, Chosen};

use crate::cheapest::cheapest;
use answer::Refusal;
use wire::Field;

// The cost, then the sizes of the sections.
#[tactic(auto, using(basis::proofs::Stored::stored_next), unfolding(wire::specs::Wire::bytes_of))]
fn put_result(out: &mut [u8], cost: u32, sizes: &[u8])
    requires { choose_length (length sizes.now) ≤ length out.old }
    ensures { out.new ≡ stored out.old 0 (bytes_of 4 cost ++ sizes.now) }
{
    cost.put_at(out, 0);
    wire::put(out, 4, sizes);
}

/// The least cost and a list of sizes that has it; or a number and the result buffer as it was. The workspace is touched only to search.
#[tactic(auto, using(demand::proofs::Validity::valid_count, rules::proofs::HeaderBounds::header_in, acceptance::proofs::Accepting::input_listed))]
pub fn choose(b: &[u8], cat: &[u8], work: &mut [u8], out: &mut [u8]) -> Result<(), Refusal>
    ensures { Chosen b.now cat.now out.old work.old out.new work.new
        (number_of result) }
{
    let (accepted, catalogue) = acceptance::accept_both(b, cat)?;
    let count = accepted.job.count();
    if out.len() < 4 + count {
        return Err(Refusal::ResultShort);
    }
    let delivered = usize::from(accepted.job.header.delivered);
    if work.len() < 4 * ((count + 1) * (delivered + 1001)) {
        return Err(Refusal::WorkShort);
    }
    let choice = cheapest(&accepted, &catalogue, delivered, work).ok_or(Refusal::NoSuitableList)?;
    put_result(out, choice.cost, &choice.sizes[..count]);
    Ok(())
}
