// What "accepted" means: of a job, and of a job with a catalogue, as every call that takes them looks at them first.
#![tactic(auto)]

ghost use Rattle.std.specs.Prelude.{◌≡◌, IfOk};
ghost use Rattle.answer.specs.Answer.{number_of};
ghost use Rattle.record.specs.Record.{decode};
ghost use Rattle.acceptance.specs.Acceptance.{job_no, input_no};

use answer::Refusal;
use catalogue::Catalogue;
use demand::AcceptedJob;

/// Any bytes give an accepted job or a number from 1 to 9.
pub fn accept(b: &[u8]) -> Result<AcceptedJob, Refusal>
    ensures number { number_of result ≡ job_no b.now }
    ensures job { IfOk result (λ accepted. accepted.job ≡ decode b.now) }
{
    let job = job::read(b)?;
    demand::demand_refusal(job)?;
    Ok(AcceptedJob { job })
}

/// Any bytes give an accepted job and an accepted catalogue, or a number from 1 to 11. A pair and no struct: most of what follows takes one of them.
pub fn accept_both<'a>(b: &[u8], cat: &'a [u8]) -> Result<(AcceptedJob, Catalogue<'a>), Refusal>
    ensures number { number_of result ≡ input_no b.now cat.now }
    ensures input { IfOk result (λ both. (both.0.job ≡ decode b.now) × (both.1.bytes.now ≡ cat.now)) }
{
    let accepted = accept(b)?;
    let catalogue = catalogue::accept(cat)?;
    Ok((accepted, catalogue))
}
