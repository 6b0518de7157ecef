// Jobs as fields: read, and written.
ghost use Rattle.std.specs.Prelude.{◌≤◌, length};

use crate::print::Output;
use fields::{Header, Job, Section};
use std::io;
use std::io::Write;

/// A record is read. The fields that it gives are printed, and written again.
pub fn read(to: &mut Output, record: &[u8], out: &mut [u8]) -> io::Result<()> {
    match job::read(record) {
        Ok(job) => {
            write!(to, "00000000 ")?;
            fields(to, &job)?;
            write!(to, " ")?;
            written(to, job, out)
        }
        Err(refusal) => write!(to, "{:08x}", u32::from(refusal)),
    }
}

/// Fields are written.
pub fn write(to: &mut Output, raw: &[u8], out: &mut [u8]) -> io::Result<()> {
    if raw.len() < 2 || 667 < raw.len() {
        return Ok(());
    }
    written(to, job_of(raw), out)
}

// Version and service, and then the fields as in a record of version 1 from byte 5 on, with up to 63 slots. All 63 are taken, whatever
// the number of sections says. The record that they are put into has no version 2 in byte 4, so its sections begin at 40.
fn job_of(raw: &[u8]) -> Job
    requires { (2 ≤ length raw.now) × (length raw.now ≤ 667) }
{
    let mut record = [0u8; 671];
    wire::put(&mut record, 5, &raw[2..]);
    let head = decoding::header_of(&record);
    record[6] = 63;
    let all = decoding::job_of(&record);
    Job {
        header: Header {
            version: raw[0],
            service: raw[1],
            ..head
        },
        ..all
    }
}

fn written(to: &mut Output, job: Job, out: &mut [u8]) -> io::Result<()> {
    to.given(job::write(job, out), out)
}

fn fields(to: &mut Output, job: &Job) -> io::Result<()> {
    head(to, &job.header)?;
    for n in &job.residents {
        to.hex(&n.to_be_bytes())?;
    }
    let count = job.count();
    for s in job.sections.iter().skip(1).take(count) {
        section(to, s)?;
    }
    Ok(())
}

fn head(to: &mut Output, h: &Header) -> io::Result<()> {
    to.hex(&[h.version, h.service, h.tenths, h.sections, h.hours])?;
    for n in [h.meter, h.guaranteed, h.delivered, h.limit] {
        to.hex(&n.to_be_bytes())?;
    }
    Ok(())
}

fn section(to: &mut Output, s: &Section) -> io::Result<()> {
    to.hex(&[s.parent, s.kind])?;
    to.hex(&s.fixtures.to_be_bytes())?;
    to.hex(&s.decimetres.to_be_bytes())?;
    to.hex(&s.elevation.to_be_bytes())?;
    to.hex(&s.free.to_be_bytes())
}
