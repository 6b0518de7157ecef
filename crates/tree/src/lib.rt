// Where each section hangs, and what it serves: the set of the sections at or below it, and their fixtures of each kind.
// The tables have 64 places, or 64 rows of twelve, whatever the job's number of sections: there is no heap.
#![tactic(auto)]

ghost use Rattle.std.specs.Prelude.{◌≡◌, ℕ, ◌+◌, ◌≤◌, ◌<◌, get_or};
ghost use Rattle.basis.specs.Slots.{slots};
ghost use Rattle.fields.specs.Fields.{count_of};
ghost use Rattle.tree.specs.Tree.{parent_of, set_of, fixtures_below, Rooted};
ghost use Rattle.tree.specs.Rows.{RowsFit, RowAdded, Zeros, Owned, Counted, Singles};

use fields::{Job, Section};

/// Each section's parent, at the section's place.
#[tactic(auto, using(crate::proofs::Parents::parents_start, crate::proofs::Parents::parents_more))]
pub fn parents_of(job: Job) -> [u8; 64]
    requires { count_of job ≤ 63 }
    ensures { result ≡ slots 64 1 (count_of job + 1) 0 (parent_of job) }
{
    let mut parents = [0u8; 64];
    // A loop, as `from_fn` would have to test at each of the 64 places whether a section has it.
    for i in 1..=job.count() {
        parents[i] = job.sections[i].parent;
    }
    parents
}

// Section j's own bit at place j.
#[tactic(auto, using(crate::proofs::Filled::singles_start))]
fn singles(count: usize) -> [u64; 64]
    requires { count ≤ 63 }
    ensures { Singles count result }
{
    let mut sets = [0u64; 64];
    // A loop, as `from_fn` would have to test at each of the 64 places whether a section has it.
    for j in 1..=count {
        sets[j] = 1 << j;
    }
    sets
}

// Adds the twelve counts of one section to those of another.
fn add_row(n: &mut [[u32; 12]; 64], from: usize, to: usize)
    requires { RowsFit n.old «from» to }
    ensures { RowAdded n.old n.new «from» to }
{
    for k in 0..12 {
        n[to][k] += n[from][k];
    }
}

/// A job whose sections hang as a tree: at most 63 of them, and each parent's number less than the section's own.
#[derive(Clone, Copy)]
pub struct Tree<'a> {
    pub job: &'a Job,
    pub ghost rooted: { Rooted job.now },
}

impl Tree<'_> {
    /// The sections at or below each section, a bit for each, filled from the leaves up. The sets of a section's children share no bit, so
    /// their sum is their union. Place 0 has every section.
    pub fn sets(&self) -> [u64; 64]
        ensures { (i : ℕ) → i < 64 → get_or result i 0 ≡ set_of self.now.job.now i }
    {
        let count = self.job.count();
        let mut sets = singles(count);
        for t in (1..=count).rev() {
            sets[usize::from(self.job.sections[t].parent)] += sets[t];
        }
        sets
    }

    /// All fixtures at the ends of section i's set, those of the house where i is 0: bit by bit from the section's own, as no section of the
    /// set has a lower number, to the set's highest.
    pub fn fixtures_below(&self, set: u64, i: usize) -> u64
        requires { (i ≤ count_of self.now.job.now) × (set ≡ set_of self.now.job.now i) }
        ensures { result ≡ fixtures_below self.now.job.now i }
    {
        // A cast: std has no `From` from 32 bits to a place.
        let end = (u64::BITS - set.leading_zeros()) as usize;
        let mut sum = 0;
        for j in i..end {
            sum += ((set >> j) & 1) * u64::from(self.job.sections[j].fixtures);
        }
        sum
    }

    // Each section's own fixtures, over zeros.
    fn fill(&self, n: &mut [[u32; 12]; 64])
        requires { Zeros n.old }
        ensures { Owned self.now.job.now (count_of self.now.job.now) n.new }
    {
        for j in 1..=self.job.count() {
            let Section { kind, fixtures, .. } = self.job.sections[j];
            if (1..=12).contains(&kind) {
                n[j][usize::from(kind) - 1] = u32::from(fixtures);
            }
        }
    }

    // Adds each section's counts to its parent's, from the leaves up.
    fn gather(&self, n: &mut [[u32; 12]; 64])
        requires { Owned self.now.job.now (count_of self.now.job.now) n.old }
        ensures { Counted self.now.job.now n.new }
    {
        for t in (1..=self.job.count()).rev() {
            add_row(n, t, usize::from(self.job.sections[t].parent));
        }
    }

    /// The fixtures of each kind at a section's end or at any end below it: kind c + 1 of section i in column c of row i. Row 0 is the house.
    #[tactic(auto, using(crate::proofs::Cells::zeros))]
    pub fn counts(&self) -> [[u32; 12]; 64]
        ensures { Counted self.now.job.now result }
    {
        let mut n = [[0u32; 12]; 64];
        self.fill(&mut n);
        self.gather(&mut n);
        n
    }
}
