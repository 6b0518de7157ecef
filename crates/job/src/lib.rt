// Reading a job record and writing one.
#![tactic(auto)]

ghost use Rattle.std.specs.Prelude.{◌≡◌, not, [], ◌∷◌, length, IfOk};
ghost use Rattle.answer.specs.Answer.{number_of};
ghost use Rattle.answer.specs.Checks.{first_no, buffer_after};
ghost use Rattle.rules.specs.Rules.{version_ok, header_ok};
ghost use Rattle.record.specs.Record.{decode, encode};
ghost use Rattle.job.specs.Calls.{shape_checks, read_no, read_job, write_no, copy_no, job_in, WrittenRead};

use answer::Refusal;
use fields::{Header, Job};
use wire::Field;

// 2 and 3, of a header.
#[tactic(auto, unfolding(answer::specs::Checks::first_no))]
fn header_refusal(h: Header) -> Result<(), Refusal>
    ensures { number_of result ≡ first_no ((not (version_ok h), 2) ∷ (not (header_ok h), 3) ∷ []) }
{
    if !rules::version_ok(h) {
        return Err(Refusal::JobVersion);
    }
    if !rules::header_ok(h) {
        return Err(Refusal::HeaderRange);
    }
    Ok(())
}

// 1 to 4, of the record as it stands.
#[tactic(auto, using(crate::proofs::Shape::tested), unfolding(record::specs::Record::header_at))]
fn shape_refusal(b: &[u8]) -> Result<(), Refusal>
    ensures { number_of result ≡ first_no (shape_checks b.now) }
{
    // std has no From from u32 to usize, whose 64 bits hold it.
    if b.len() < 40 || u32::at(b, 0) as usize != b.len() {
        return Err(Refusal::JobLength);
    }
    let head = decoding::header_of(b);
    header_refusal(head)?;
    if b.len() != record::length_of(head.version, head.sections) {
        return Err(Refusal::SectionBytes);
    }
    Ok(())
}

/// Any bytes give a job or a number from 1 to 7, whose fields, `job_in`, are all zero.
#[tactic(auto, using(crate::proofs::Decided::outcomes_read), unfolding(record::specs::Record::decode, record::specs::Record::header_at))]
pub fn read(b: &[u8]) -> Result<Job, Refusal>
    ensures number { number_of result ≡ read_no b.now }
    ensures job { IfOk result (λ job. job ≡ decode b.now) }
    ensures fields { job_in result ≡ read_job b.now }
{
    shape_refusal(b)?;
    let job = decoding::job_of(b);
    rules::broken_rule(job)?;
    Ok(job)
}

// 2, 3, 5, 6, 7 and 14, of fields and a buffer.
#[tactic(auto, using(crate::proofs::Decided::outcomes_written))]
fn write_refusal(job: Job, room: usize) -> Result<(), Refusal>
    ensures { number_of result ≡ write_no job room }
{
    header_refusal(job.header)?;
    rules::broken_rule(job)?;
    if room < record::length_of(job.header.version, job.header.sections) {
        return Err(Refusal::ResultShort);
    }
    Ok(())
}

/// The record's bytes at the front of the buffer, or a number and the buffer as it was.
#[tactic(auto, using(answer::proofs::Some::number_at_exit, rules::proofs::HeaderBounds::header_in, crate::proofs::Decided::writable))]
pub fn write(job: Job, out: &mut [u8]) -> Result<(), Refusal>
    ensures number { number_of result ≡ write_no job (length out.old) }
    ensures buffer { out.new ≡ buffer_after (number_of result) (encode job) out.old }
{
    write_refusal(job, out.len())?;
    encoding::put_job(out, job);
    Ok(())
}

/// Reads a record and writes it again.
#[tactic(auto, using(answer::proofs::Some::number_at_exit, crate::proofs::Decided::copy_exit, crate::proofs::Decided::read_accepted, crate::proofs::RoundTrip::copied))]
pub fn copy(b: &[u8], out: &mut [u8]) -> Result<(), Refusal>
    ensures number { number_of result ≡ copy_no b.now (length out.old) }
    ensures buffer { out.new ≡ buffer_after (number_of result) b.now out.old }
{
    let job = read(b)?;
    write(job, out)
}

/// Writes a job and reads the record again.
pub fn write_read(job: Job, out: &mut [u8]) -> Result<Job, Refusal>
    ensures { WrittenRead job out.old out.new (number_of result) (job_in result) }
{
    write(job, out)?;
    let end = record::length_of(job.header.version, job.header.sections);
    read(&out[..end])
}
