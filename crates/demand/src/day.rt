// The house's greatest day.
ghost use Rattle.std.specs.Prelude.{◌≡◌, ◌*◌, ◌≤◌};
ghost use Rattle.fields.specs.Fields.{residents_of};
ghost use Rattle.demand.specs.Demand.{norm_at, day_of};

use fields::Job;

// The greatest day of a kind's residents. Without residents nothing is looked up.
// A number and no enum: the kind is the caller's counter and the place in the tables.
fn day_part(job: &Job, kind: usize) -> u64
    requires { (1 ≤ kind) × (kind ≤ 12) }
    ensures { (result ≡ (norm_at job.now kind).day * residents_of job.now kind) × (result ≤ 26214000) }
{
    let residents = u64::from(job.residents[kind - 1]);
    if residents == 0 {
        return 0;
    }
    let norm = norms::norm_of(job.header.service, kind);
    norm.day * residents
}

/// The greatest day in litres.
// A loop, as the proof of `sum` over a chain did not close: `sum` asks that the total fits before any kind's residents are read, and a day's
// bound is known of residents that are read.
pub fn day_of(job: Job) -> u32
    ensures { result ≡ day_of job }
{
    let mut day = 0;
    for kind in 1..=12 {
        day += day_part(&job, kind);
    }
    // A cast: std has no `From` from 64 to 32 bits.
    day as u32
}
