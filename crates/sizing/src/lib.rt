// A section with a size: the size read at the section's flow, the test of 13, and the loss.
#![tactic(auto)]

ghost use Rattle.std.specs.Prelude.{◌≡◌, ◌≤◌, ◌<◌, IfSome};
ghost use Rattle.catalogue.specs.Layout.{sizes_of, rows_of, part_of};
ghost use Rattle.catalogue.specs.Reading.{read_rows};
ghost use Rattle.sizing.specs.Losses.{loss_of};
ghost use Rattle.sizing.specs.Steps.{tried_of};

use catalogue::Catalogue;
use demand::AcceptedJob;

/// Velocity in mm/s and loss in cm.
#[derive(Clone, Copy)]
pub struct Tried {
    pub velocity: u32,
    pub loss: u32,
}

/// What the job says of a section's pipe: the limit of its velocity in mm/s, its length in decimetres, and k.
#[derive(Clone, Copy)]
pub struct Pipe {
    pub limit: u16,
    pub decimetres: u16,
    pub tenths: u8,
    pub ghost short: { decimetres ≤ 5000 },
    pub ghost few: { tenths ≤ 3 },
}

impl Pipe {
    ghost use Rattle.fields.specs.Fields.{count_of, section_of};

    /// The pipe of section i.
    #[tactic(auto, using(demand::proofs::Validity::valid_count))]
    pub fn of(accepted: &AcceptedJob, i: usize) -> Pipe
        requires { (0 < i) × (i ≤ count_of accepted.now.job) }
        ensures limit { result.limit ≡ accepted.now.job.header.limit }
        ensures decimetres { result.decimetres ≡ (section_of accepted.now.job i).decimetres }
        ensures tenths { result.tenths ≡ accepted.now.job.header.tenths }
    {
        let job = &accepted.job;
        Pipe {
            limit: job.header.limit,
            decimetres: job.sections[i].decimetres,
            tenths: job.header.tenths,
        }
    }
}

// slope × length × (10 + k) / 1,000, up.
fn loss(slope: u32, pipe: Pipe) -> u32
    requires { slope ≤ 65535 }
    ensures { (result ≡ loss_of slope pipe.decimetres pipe.tenths) × (result ≤ 4259775) }
{
    let product = u64::from(slope) * u64::from(pipe.decimetres) * (10 + u64::from(pipe.tenths));
    // std has no `From` of u64 for u32; a loss is at most 4,259,775 cm.
    round::divide_up(product, 1000) as u32
}

/// A section's pipe with size s of a catalogue at flow q; none where the flow is over the size's last row or the velocity over the limit.
pub fn try_size(catalogue: &Catalogue, s: usize, q: u32, pipe: Pipe) -> Option<Tried>
    requires { (0 < s) × (s ≤ sizes_of catalogue.now.bytes.now) }
    ensures is { result ≡ tried_of (read_rows (part_of catalogue.now.bytes.now s) (rows_of catalogue.now.bytes.now) q) pipe.limit
        pipe.decimetres pipe.tenths }
    ensures small { IfSome result (λ t. (t.velocity ≤ 65535) × (t.loss ≤ 4259775)) }
{
    let reading = catalogue.read_size(s, q)?;
    if u32::from(pipe.limit) < reading.velocity {
        return None;
    }
    Some(Tried {
        velocity: reading.velocity,
        loss: loss(reading.slope, pipe),
    })
}
