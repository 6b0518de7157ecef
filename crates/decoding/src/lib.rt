// The fields of a record, whatever they hold.
#![tactic(auto)]

ghost use Rattle.std.specs.Prelude.{◌≡◌, ◌+◌, ◌≤◌, length};
ghost use Rattle.basis.specs.Slots.{tabulate, slots};
ghost use Rattle.wire.specs.Wire.{byte_at};
ghost use Rattle.fields.specs.Fields.{blank_section};
ghost use Rattle.record.specs.Record.{length_of, version_at, service_at, header_at, residents_at, section_at, section_from, decode};

use fields::{Header, Job, Section};
use record::place_of;
use std::array;
use wire::Field;

// The service: version 1 means total, and a record that ends before its service byte has none.
#[tactic(auto, unfolding(record::specs::Record::service_at))]
fn service_of(b: &[u8]) -> u8
    requires { 40 ≤ length b.now }
    ensures { result ≡ service_at b.now }
{
    match b.get(record::SERVICE) {
        Some(service) if b[4] == 2 => *service,
        _ => 0,
    }
}

/// The head fields.
#[tactic(auto, unfolding(record::specs::Record::header_at))]
pub fn header_of(b: &[u8]) -> Header
    requires { 40 ≤ length b.now }
    ensures { result ≡ header_at b.now }
{
    Header {
        version: b[4],
        service: service_of(b),
        tenths: b[5],
        sections: b[6],
        hours: b[7],
        meter: u16::at(b, 8),
        guaranteed: u16::at(b, 10),
        delivered: u16::at(b, 12),
        limit: u16::at(b, 14),
    }
}

// The residents of kinds 1 to 12.
fn residents_of(b: &[u8]) -> [u16; 12]
    requires { 40 ≤ length b.now }
    ensures { result ≡ tabulate 12 (residents_at b.now) }
{
    array::from_fn(|c| u16::at(b, 16 + 2 * c))
}

// The section whose ten bytes begin at a place. No `From` of ten bytes: the definition is of the whole record and the place.
#[tactic(auto, unfolding(record::specs::Record::section_from))]
fn section_from(b: &[u8], at: usize) -> Section
    requires { at + 10 ≤ length b.now }
    ensures { result ≡ section_from b.now at }
{
    Section {
        parent: b[at],
        kind: b[at + 1],
        fixtures: u16::at(b, at + 2),
        decimetres: u16::at(b, at + 4),
        elevation: i16::at(b, at + 6),
        free: u16::at(b, at + 8),
    }
}

// Sections 1 to count; the other places are blank. No heap: 64 places, whatever the count; a loop, as `from_fn` would have to test at each place
// whether a section has it.
#[tactic(auto, using(record::proofs::Lengths::from_in, basis::proofs::Slots::slots_none, crate::proofs::Arrays::one_more))]
fn sections_of(b: &[u8], count: usize) -> [Section; 64]
    requires { (count ≤ 63) × (length_of (version_at b.now) count ≤ length b.now) }
    ensures { result ≡ slots 64 1 (count + 1) blank_section (section_at b.now) }
{
    let version = b[4];
    let mut sections = [Section::default(); 64];
    for i in 1..=count {
        sections[i] = section_from(b, place_of(version, i));
    }
    sections
}

/// All fields.
#[tactic(auto, using(record::proofs::Lengths::from_in), unfolding(record::specs::Record::decode))]
pub fn job_of(b: &[u8]) -> Job
    requires { (byte_at b.now 6 ≤ 63) × (length_of (version_at b.now) (byte_at b.now 6) ≤ length b.now) }
    ensures { result ≡ decode b.now }
{
    Job {
        header: header_of(b),
        residents: residents_of(b),
        sections: sections_of(b, usize::from(b[6])),
    }
}
