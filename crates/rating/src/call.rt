// The rating call, and the losses call, which gives no heads.
ghost use Rattle.std.specs.Prelude.{◌≡◌, ◌+◌, ◌*◌, ◌≤◌, length, IfOk};
ghost use Rattle.answer.specs.Answer.{number_of};
ghost use Rattle.answer.specs.Checks.{buffer_after};
ghost use Rattle.fields.specs.Fields.{count_of};
ghost use Rattle.record.specs.Record.{decode};
ghost use Rattle.heads.specs.Steps.{Given};
ghost use Rattle.rating.specs.Calls.{sized_no, rate_no, rate_bytes, losses_no, losses_bytes};
ghost use Rattle.rating.specs.Steps.{Alone, OwnFlows, RatedJob, losses_in};

use crate::sections::{list_ok, rate_sections};
use acceptance::accept_both;
use answer::Refusal;
use demand::AcceptedJob;
use heads::JobWithLosses;
use rated_bytes::{Figure, Layout, put_heads, put_sections};

/// A rated job, with the figures of its sections at their places, in an array since a call has no heap.
#[derive(Clone, Copy)]
pub struct Rating {
    pub accepted: AcceptedJob,
    pub figures: [Figure; 64],
    pub ghost flows: { OwnFlows accepted.job figures },
    pub ghost given: { Given accepted.job (losses_in figures) },
}

impl Rating {
    /// The figures of the sections alone.
    #[tactic(auto, using(demand::proofs::Validity::valid_count))]
    pub fn sections(&self) -> &[Figure]
        ensures { Alone (count_of self.now.accepted.job) self.now.figures result.now }
    {
        let count = self.accepted.job.count();
        &self.figures[1..=count]
    }

    /// The job with the losses of its sections.
    pub fn with_losses(&self) -> JobWithLosses<'_>
        ensures { (result.job.now ≡ self.now.accepted.job) × (result.losses ≡ losses_in self.now.figures) }
    {
        JobWithLosses {
            job: &self.accepted.job,
            losses: self.figures.map(|figure| figure.loss),
        }
    }
}

/// What the sections come to, where a result buffer of `room` bytes has room for them in this layout.
#[tactic(auto, using(answer::proofs::Some::number_at_exit, crate::proofs::Ordering::sized_exit, crate::proofs::Ordering::sized_list, crate::proofs::Ordering::sized_short, crate::proofs::Ordering::sized_over, crate::proofs::Ordering::sized_done))]
pub fn outcome(
    b: &[u8],
    cat: &[u8],
    list: &[u8],
    room: usize,
    layout: Layout,
) -> Result<Rating, Refusal>
    requires { (layout.front ≤ 9) × (layout.each ≤ 10) }
    ensures number { number_of result ≡ sized_no b.now cat.now list.now room
        (layout.front + layout.each * count_of (decode b.now)) }
    ensures rated { IfOk result (λ o. RatedJob b.now cat.now list.now room (layout.front + layout.each * count_of (decode b.now))
        o.accepted.job o.figures) }
{
    let (accepted, catalogue) = accept_both(b, cat)?;
    if !list_ok(&accepted.job, &catalogue, list) {
        return Err(Refusal::SizeList);
    }
    let count = accepted.job.count();
    if room < layout.front + layout.each * count {
        return Err(Refusal::ResultShort);
    }
    let figures = rate_sections(&accepted, &catalogue, list).ok_or(Refusal::SizeTooSmall)?;
    Ok(Rating { accepted, figures })
}

/// Required head, pump head, dictating section, then velocity and loss of each section; or a number and the buffer as it was.
#[tactic(auto, using(answer::proofs::Some::number_at_exit, crate::proofs::Rated::rated_room))]
pub fn rate(b: &[u8], cat: &[u8], list: &[u8], out: &mut [u8]) -> Result<(), Refusal>
    ensures number { number_of result ≡ rate_no b.now cat.now list.now (length out.old) }
    ensures buffer { out.new ≡ buffer_after (number_of result)
        (rate_bytes (decode b.now) cat.now list.now) out.old }
{
    let rating = outcome(b, cat, list, out.len(), Layout::RATING)?;
    put_heads(out, &rating.with_losses());
    put_sections(out, Layout::RATING, rating.sections());
    Ok(())
}

/// Flow, velocity and loss of each section, without the heads; or a number and the buffer as it was.
#[tactic(auto, using(answer::proofs::Some::number_at_exit, crate::proofs::Rated::rated_room))]
pub fn losses(b: &[u8], cat: &[u8], list: &[u8], out: &mut [u8]) -> Result<(), Refusal>
    ensures number { number_of result ≡ losses_no b.now cat.now list.now (length out.old) }
    ensures buffer { out.new ≡ buffer_after (number_of result)
        (losses_bytes (decode b.now) cat.now list.now) out.old }
{
    let rating = outcome(b, cat, list, out.len(), Layout::LOSSES)?;
    put_sections(out, Layout::LOSSES, rating.sections());
    Ok(())
}
