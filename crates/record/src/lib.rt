// The layout of the job record: where the sections stand.
#![tactic(auto)]

ghost use Rattle.std.specs.Prelude.{◌≡◌, ◌≤◌, ◌<◌};
ghost use Rattle.record.specs.Record.{sections_from, length_of, place_of};

/// Where the meter loss stands.
pub const METER: usize = 8;

/// Where the service stands in version 2.
pub const SERVICE: usize = 40;

// The version is a number and no enum in all three: the writer is given any, and lays out all but 2 as 1.

// Where the sections begin.
#[tactic(auto, unfolding(crate::specs::Record::sections_from))]
fn sections_from(version: u8) -> usize
    ensures { (result ≡ sections_from version) × (result ≤ 41) }
{
    if version == 2 { 41 } else { 40 }
}

/// Where section i begins, from 1.
pub fn place_of(version: u8, i: usize) -> usize
    requires { (0 < i) × (i ≤ 256) }
    ensures { (result ≡ place_of version i) × (result ≤ 2591) }
{
    sections_from(version) + 10 * (i - 1)
}

/// The length of a record of so many sections: where one more would begin.
pub fn length_of(version: u8, count: u8) -> usize
    ensures { (result ≡ length_of version count) × (result ≤ 2591) }
{
    place_of(version, usize::from(count) + 1)
}
