// The heads call: required head, pump head and dictating section with losses that the caller gives.
#![tactic(auto)]

ghost use Rattle.std.specs.Prelude.{◌≡◌, true, false, ◌+◌, ◌≤◌, length, MatchOption};
ghost use Rattle.basis.specs.Slots.{slots};
ghost use Rattle.answer.specs.Answer.{number_of};
ghost use Rattle.answer.specs.Checks.{buffer_after};
ghost use Rattle.record.specs.Record.{decode};
ghost use Rattle.lent_losses.specs.LentLosses.{loss_in, losses_ok};
ghost use Rattle.lent_losses.specs.Calls.{heads_no, lent_bytes};

use acceptance::accept;
use answer::Refusal;
use heads::JobWithLosses;
use rated_bytes::put_heads;
use wire::Field;

// The most that a section loses, in cm.
const MOST_LOSS: u32 = 4_259_775;

// The bytes of a heads result.
const HEADS_LENGTH: usize = 9;

// The losses at the sections' places, in an array since a call has no heap, where 19 finds nothing.
fn read_losses(given: &[u8], count: usize) -> Option<[u32; 64]>
    requires { count ≤ 63 }
    ensures { MatchOption result (losses_ok count given.now ≡ false)
        (λ losses. (losses_ok count given.now ≡ true) × (losses ≡ slots 64 1 (count + 1) 0 (loss_in given.now))) }
{
    if given.len() != 4 * count {
        return None;
    }
    let mut losses = [0; 64];
    let (chunks, _) = given.as_chunks::<4>();
    for (i, chunk) in chunks.iter().enumerate() {
        let loss = u32::at(chunk, 0);
        if MOST_LOSS < loss {
            return None;
        }
        losses[i + 1] = loss;
    }
    Some(losses)
}

/// Required head, pump head and dictating section, or a number and the buffer as it was.
#[tactic(auto, using(answer::proofs::Some::number_at_exit, demand::proofs::Validity::valid_count, crate::proofs::Ordering::heads_exit, crate::proofs::Ordering::heads_listed, crate::proofs::Ordering::heads_short, crate::proofs::Ordering::heads_done))]
pub fn heads(b: &[u8], given: &[u8], out: &mut [u8]) -> Result<(), Refusal>
    ensures number { number_of result ≡ heads_no b.now given.now (length out.old) }
    ensures buffer { out.new ≡ buffer_after (number_of result)
        (lent_bytes (decode b.now) given.now) out.old }
{
    let accepted = accept(b)?;
    let count = accepted.job.count();
    let losses = read_losses(given, count).ok_or(Refusal::LossList)?;
    if out.len() < HEADS_LENGTH {
        return Err(Refusal::ResultShort);
    }
    let job = JobWithLosses {
        job: &accepted.job,
        losses,
    };
    put_heads(out, &job);
    Ok(())
}
