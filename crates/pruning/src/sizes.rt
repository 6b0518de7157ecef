// The sizes of a section that no cheapest list needs are taken out.
ghost use Rattle.std.specs.Prelude.{◌≡◌, true, false, ◌+◌, ◌*◌, ◌≤◌, ◌<◌, ◌↔◌, IsTrue, MatchOption, slice_index, EachIndex, SomeIndex};
ghost use Rattle.std.specs.Option.{ForSome};
ghost use Rattle.nets.specs.Tables.{top};
ghost use Rattle.nets.specs.NetIn.{net_in};
ghost use Rattle.pruning.specs.Keeps.{Keeps};
ghost use Rattle.pruning.specs.Steps.{Alike, AsGood, Emptied, LeastLoss, Needless, Trimmed};

use nets::{TOP, Tables};

// Whether size `kept` of section s loses and costs no more than size t.
fn as_good(tables: &Tables, s: usize, kept: usize, t: usize) -> bool
    requires { (s ≤ tables.now.sections) × (kept ≤ tables.now.sizes) × (t ≤ tables.now.sizes) }
    ensures { IsTrue result ↔ AsGood (net_in tables.now) s kept t }
{
    tables.loss(s, kept) <= tables.loss(s, t) && tables.cost(s, kept) <= tables.cost(s, t)
}

// Whether size t of section s loses too much, or loses and costs no less than the last one kept.
fn is_needless(tables: &Tables, head: usize, s: usize, last: Option<usize>, t: usize) -> bool
    requires sections { (s ≤ tables.now.sections) × (t ≤ tables.now.sizes) }
    requires last { ForSome last (λ k. k < t) }
    ensures needless { result ≡ true → Needless (net_in tables.now) head s last t }
    ensures kept { result ≡ false → slice_index tables.now.losses (s * 13 + t) + slice_index tables.now.needs s ≤ head }
{
    // std has no `From` from 32 bits to a place.
    let over = head < tables.loss(s, t) as usize + tables.needs[s] as usize;
    over || last.is_some_and(|kept| as_good(tables, s, kept, t))
}

/// Takes out the sizes of section s that lose too much, and those that lose and cost no less than the last one kept.
pub fn trim(tables: &mut Tables, head: usize, s: usize)
    requires { (0 < s) × (s ≤ tables.old.sections) × (head ≤ 7000) }
    ensures alike { Alike tables.old tables.new }
    ensures needs { tables.new.needs ≡ tables.old.needs }
    ensures keeps { Keeps head (net_in tables.old) (net_in tables.new) }
    ensures trimmed { Trimmed (net_in tables.new) head s }
{
    let mut last: Option<usize> = None;
    for t in 1..=tables.sizes {
        if is_needless(tables, head, s, last, t) {
            // By its place: a method would have to say of each other field that it stays.
            tables.losses[s * 13 + t] = TOP;
        } else {
            last = Some(t);
        }
    }
}

// The least of some losses, where that may be taken. (No head is asked here, so that the mark is: where all have it, it is the least.)
fn least_of(losses: &[u32]) -> Option<u32>
    ensures { MatchOption result (EachIndex losses.now (λ k. top ≤ slice_index losses.now k))
        (λ least. (least < top) × SomeIndex losses.now (λ k. slice_index losses.now k ≡ least)
        × EachIndex losses.now (λ k. least ≤ slice_index losses.now k)) }
{
    losses.iter().copied().min().filter(|l| *l < TOP)
}

/// The least loss of the sizes of section s that may be taken.
#[tactic(auto, using(crate::proofs::Rows::row_least))]
pub fn least_loss(tables: &Tables, s: usize) -> Option<u32>
    requires { s ≤ tables.now.sections }
    ensures { MatchOption result (Emptied (net_in tables.now) s) (LeastLoss (net_in tables.now) s) }
{
    least_of(tables.losses_of(s))
}
