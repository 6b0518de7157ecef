// What each section may have: loss and cost with each size of the catalogue.
ghost use Rattle.std.specs.Prelude.{◌≡◌, ◌*◌, ◌<◌};
ghost use Rattle.fields.specs.Fields.{count_of};
ghost use Rattle.catalogue.specs.Layout.{sizes_of, price_of};
ghost use Rattle.choosing.specs.Suitable.{price_at};
ghost use Rattle.choosing.specs.Steps.{entry_of, loss_by, loss_entry, Entered, Tabled};

use catalogue::Catalogue;
use demand::AcceptedJob;
use nets::TOP;
use sizing::{Pipe, Tried};

// The loss of a section with a size, or the mark where the section may not have it.
fn entry(tried: Option<Tried>) -> u32
    ensures { result ≡ entry_of tried }
{
    match tried {
        Some(t) => t.loss,
        None => TOP,
    }
}

// Row i of both tables, of the pipe there with each size at its flow. No heap: the tables have room for 63 sections of 12 sizes, each at its number.
#[tactic(auto, using(catalogue::proofs::AcceptedCat::cat_counts))]
fn put_row(
    pipe: Pipe,
    catalogue: &Catalogue,
    i: usize,
    flow: u32,
    losses: &mut [u32; 832],
    costs: &mut [u32; 832],
)
    requires { i < 64 }
    ensures losses { Entered (loss_by pipe.limit pipe.decimetres pipe.tenths catalogue.now.bytes.now flow) i (sizes_of catalogue.now.bytes.now)
        losses.old losses.new }
    ensures costs { Entered (λ s. price_of catalogue.now.bytes.now s * pipe.decimetres) i (sizes_of catalogue.now.bytes.now)
        costs.old costs.new }
{
    for s in 1..=usize::from(catalogue.sizes()) {
        let tried = sizing::try_size(catalogue, s, flow, pipe);
        // By hand: a method that writes would have to say of each other place that it stays.
        losses[i * 13 + s] = entry(tried);
        costs[i * 13 + s] = u32::from(catalogue.price(s)) * u32::from(pipe.decimetres);
    }
}

/// Both tables.
#[tactic(auto, using(demand::proofs::Validity::valid_count))]
pub fn put_options(
    accepted: &AcceptedJob,
    catalogue: &Catalogue,
    losses: &mut [u32; 832],
    costs: &mut [u32; 832],
)
    ensures losses { Tabled (loss_entry accepted.now.job catalogue.now.bytes.now) (count_of accepted.now.job)
        (sizes_of catalogue.now.bytes.now) losses.new }
    ensures costs { Tabled (λ i s. price_at accepted.now.job catalogue.now.bytes.now s i) (count_of accepted.now.job)
        (sizes_of catalogue.now.bytes.now) costs.new }
{
    let flows = accepted.flows();
    for i in 1..=accepted.job.count() {
        let pipe = Pipe::of(accepted, i);
        put_row(pipe, catalogue, i, flows[i], losses, costs);
    }
}
