// The sums over the twelve kinds: shares, and shares by norm; and one tap of the kinds served.
ghost use Rattle.std.specs.Prelude.{◌≡◌, ◌≤◌, ◌<◌};
ghost use Rattle.fields.specs.Fields.{residents_of};
ghost use Rattle.tree.specs.Tree.{served_of};
ghost use Rattle.tree.specs.Rows.{Counted};
ghost use Rattle.demand.specs.Steps.{Adds, HourAdds};
ghost use Rattle.demand.specs.Demand.{norm_at, m_of, fixture_sum_of, one_tap_of, hour_sum_of, hourly_sum_of};

use fields::Job;
use norms::Norm;
use tree::Tree;

/// Of a section or the house, or of one of its kinds: m, the sum of share × Z, and one tap in ml/s.
#[derive(Clone, Copy, Default)]
pub struct Sums {
    pub m: u64,
    pub weighted: u64,
    pub tap: u64,
}

/// Of the house's hour, or of one of its kinds: the sum of the shares, and of share × O. One type with `Sums` would be no plainer: the hour has no
/// tap, and each sum has its own bounds.
#[derive(Clone, Copy, Default)]
pub struct HourSums {
    pub shares: u64,
    pub weighted: u64,
}

// What a kind with n of the house's fixtures adds to the sums. Most sections serve few kinds, and without fixtures nothing is looked up or
// divided. Everything is multiplied before it is divided.
// A number and no enum: the kind is the caller's counter and the place in the tables.
fn part_of(job: &Job, kind: usize, n: u64, house: u64) -> Sums
    requires { (1 ≤ kind) × (kind ≤ 12) × (n ≤ house) × (house ≤ 4128705) }
    ensures { Adds (norm_at job.now kind) (residents_of job.now kind) n house result.m result.weighted result.tap }
{
    if n == 0 {
        return Sums::default();
    }
    let residents = u64::from(job.residents[kind - 1]);
    let Norm { hour, fixture, .. } = norms::norm_of(job.header.service, kind);
    let share = round::divide_up(25000 * hour * residents * n, 9 * fixture * house);
    Sums {
        m: share,
        weighted: share * fixture,
        tap: 10 * fixture,
    }
}

/// The sums of row i of the counts: section i's, or the house's where i is 0. A loop here and in `hour_sums`, as
/// `sum` adds up one figure, and here are three and two.
pub fn sums_of(tree: &Tree, counts: &[[u32; 12]; 64], i: usize) -> Sums
    requires { Counted tree.now.job.now counts.now × (i < 64) }
    ensures { (result.m ≡ m_of tree.now.job.now (served_of tree.now.job.now i))
        × (result.weighted ≡ fixture_sum_of tree.now.job.now (served_of tree.now.job.now i))
        × (result.tap ≡ one_tap_of tree.now.job.now (served_of tree.now.job.now i)) }
{
    let mut sums = Sums::default();
    for kind in 1..=12 {
        let n = u64::from(counts[i][kind - 1]);
        let house = u64::from(counts[0][kind - 1]);
        let part = part_of(tree.job, kind, n, house);
        sums.m += part.m;
        sums.weighted += part.weighted;
        sums.tap = sums.tap.max(part.tap);
    }
    sums
}

// What a kind adds to the sums of the house's hour. Without residents nothing is looked up or divided. Beside `part_of`, which has a kind's
// fixtures and a tap, one function for both would be no plainer.
// A number and no enum: the kind is the caller's counter and the place in the tables.
fn hour_part(job: &Job, kind: usize) -> HourSums
    requires { (1 ≤ kind) × (kind ≤ 12) }
    ensures { HourAdds (norm_at job.now kind) (residents_of job.now kind) result.shares result.weighted }
{
    let residents = u64::from(job.residents[kind - 1]);
    if residents == 0 {
        return HourSums::default();
    }
    let Norm { hour, hourly, .. } = norms::norm_of(job.header.service, kind);
    let shares = round::divide_up(100000 * hour * residents, hourly);
    HourSums {
        shares,
        weighted: shares * hourly,
    }
}

/// The sums of the house's hour.
pub fn hour_sums(job: &Job) -> HourSums
    ensures { (result.shares ≡ hour_sum_of job.now) × (result.weighted ≡ hourly_sum_of job.now) }
{
    let mut sums = HourSums::default();
    for kind in 1..=12 {
        let part = hour_part(job, kind);
        sums.shares += part.shares;
        sums.weighted += part.weighted;
    }
    sums
}
