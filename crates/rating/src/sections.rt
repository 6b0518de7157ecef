// Flow, velocity and loss of each section.
ghost use Rattle.std.specs.Prelude.{◌≡◌, true, false, MatchOption};
ghost use Rattle.sizing.specs.Losses.{list_ok, over_any};
ghost use Rattle.rating.specs.Steps.{RatedAt};

use catalogue::Catalogue;
use demand::AcceptedJob;
use fields::Job;
use rated_bytes::Figure;
use sizing::{Pipe, try_size};

/// 12: the list is S long and names sizes.
pub fn list_ok(job: &Job, catalogue: &Catalogue, list: &[u8]) -> bool
    ensures { result ≡ list_ok job.now catalogue.now.bytes.now list.now }
{
    let sizes = catalogue.sizes();
    list.len() == job.count() && list.iter().all(|size| (1..=sizes).contains(size))
}

/// The figures of each section with its size, at the sections' places in an array (no heap), where no section is over its last row or
/// the limit.
pub fn rate_sections(
    accepted: &AcceptedJob,
    catalogue: &Catalogue,
    list: &[u8],
) -> Option<[Figure; 64]>
    requires { list_ok accepted.now.job catalogue.now.bytes.now list.now ≡ true }
    ensures { MatchOption result (over_any accepted.now.job catalogue.now.bytes.now list.now ≡ true)
        (λ figures. (over_any accepted.now.job catalogue.now.bytes.now list.now ≡ false)
        × RatedAt accepted.now.job catalogue.now.bytes.now list.now figures) }
{
    let flows = accepted.flows();
    let mut figures = [Figure::default(); 64];
    for i in 1..=accepted.job.count() {
        let pipe = Pipe::of(accepted, i);
        let tried = try_size(catalogue, usize::from(list[i - 1]), flows[i], pipe)?;
        figures[i] = Figure {
            flow: flows[i],
            // std has no `From` of u32 for u16; a catalogue gives velocities of two bytes.
            velocity: tried.velocity as u16,
            loss: tried.loss,
        };
    }
    Some(figures)
}
