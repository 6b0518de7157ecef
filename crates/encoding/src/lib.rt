// The bytes of a job's fields, written from the front of a buffer, and a record's bytes with one field replaced.
#![tactic(auto)]

ghost use Rattle.std.specs.Prelude.{◌≡◌, ◌+◌, ◌-◌, ◌≤◌, length, get_or};
ghost use Rattle.basis.specs.Range.{concat_to};
ghost use Rattle.basis.specs.Stored.{stored};
ghost use Rattle.fields.specs.Fields.{blank_section, version_of, count_of};
ghost use Rattle.record.specs.Record.{sections_from, length_of, header_bytes, section_bytes, service_bytes, encode};
ghost use Rattle.record.specs.Edited.{edited};

use fields::{Header, Job, Section};
use record::{length_of, place_of};
use wire::Field;

// The head fields.
#[tactic(auto, using(basis::proofs::Stored::stored_next, wire::proofs::Fields::bytes_length), unfolding(record::specs::Record::header_bytes))]
fn put_header(out: &mut [u8], h: Header)
    requires { 16 ≤ length out.old }
    ensures { out.new ≡ stored out.old 0 (header_bytes h) }
{
    // std has no From from usize to u32; a length is at most 2,591.
    let length = length_of(h.version, h.sections) as u32;
    length.put_at(out, 0);
    wire::put(out, 4, &[h.version, h.tenths, h.sections, h.hours]);
    h.meter.put_at(out, 8);
    h.guaranteed.put_at(out, 10);
    h.delivered.put_at(out, 12);
    h.limit.put_at(out, 14);
}

// The service byte of version 2.
#[tactic(auto, using(record::proofs::Lengths::from_two, basis::proofs::Stored::stored_one, basis::proofs::Stored::stored_none), unfolding(record::specs::Record::service_bytes))]
fn put_service(out: &mut [u8], h: Header)
    requires { sections_from h.version ≤ length out.old }
    ensures { out.new ≡ stored out.old 40 (service_bytes h) }
{
    if h.version == 2 {
        out[record::SERVICE] = h.service;
    }
}

// The fields of a section.
#[tactic(auto, using(basis::proofs::Stored::stored_next, wire::proofs::Fields::bytes_length), unfolding(record::specs::Record::section_bytes))]
fn put_section(out: &mut [u8], at: usize, s: Section)
    requires { at + 10 ≤ length out.old }
    ensures { out.new ≡ stored out.old at (section_bytes s) }
{
    wire::put(out, at, &[s.parent, s.kind]);
    s.fixtures.put_at(out, at + 2);
    s.decimetres.put_at(out, at + 4);
    s.elevation.put_at(out, at + 6);
    s.free.put_at(out, at + 8);
}

// The sections, from the first one's place on. The version is a number and no enum, as place_of takes it.
#[tactic(auto, using(basis::proofs::Stored::stored_none, basis::proofs::Concat::concat_none))]
fn put_sections(out: &mut [u8], version: u8, sections: &[Section])
    requires { (length sections.now ≤ 63) × (length_of version (length sections.now) ≤ length out.old) }
    ensures { out.new ≡ stored out.old (sections_from version)
        (concat_to (length sections.now) (λ i. section_bytes (get_or sections.now (i - 1) blank_section))) }
{
    for (i, section) in sections.iter().enumerate() {
        put_section(out, place_of(version, i + 1), *section);
    }
}

// The bytes of b from a place on. (Byte by byte: with std's copy between two slices that the caller lends, the archive would ask for memmove, which a C program may not have.)
fn put_lent(out: &mut [u8], at: usize, b: &[u8])
    requires { at + length b.now ≤ length out.old }
    ensures { out.new ≡ stored out.old at b.now }
{
    for k in 0..b.len() {
        out[at + k] = b[k];
    }
}

/// The record b from a place on, with n in the two bytes of one field.
#[tactic(auto, using(basis::proofs::Stored::stored_inside, wire::proofs::Fields::bytes_length))]
pub fn put_edited(out: &mut [u8], at: usize, b: &[u8], field: usize, n: u16)
    requires { (at + length b.now ≤ length out.old) × (field + 2 ≤ length b.now) }
    ensures { out.new ≡ stored out.old at (edited 2 b.now field n) }
{
    put_lent(out, at, b);
    n.put_at(out, at + field);
}

/// The whole record.
#[tactic(auto, using(record::proofs::Lengths::from_in))]
pub fn put_job(out: &mut [u8], job: Job)
    requires { (count_of job ≤ 63) × (length_of (version_of job) (count_of job) ≤ length out.old) }
    ensures { out.new ≡ stored out.old 0 (encode job) }
{
    let header = job.header;
    let count = job.count();
    put_header(out, header);
    wire::put_all(out, 16, &job.residents);
    put_service(out, header);
    put_sections(out, header.version, &job.sections[1..=count]);
}
