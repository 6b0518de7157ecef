// Refusals 2, 3, 5, 6 and 7: the rules that the fields of a job keep.
#![tactic(auto)]

ghost use Rattle.std.specs.Prelude.{◌≡◌, ◌≤◌, ◌<◌, ◌^◌, ◌&&◌, eqb};
ghost use Rattle.answer.specs.Answer.{number_of};
ghost use Rattle.answer.specs.Checks.{first_no};
ghost use Rattle.fields.specs.Fields.{count_of};
ghost use Rattle.rules.specs.Rules.{version_ok, service_ok, header_ok, kind_ok, elevation_ok, section_ok, sections_ok, childless_zero, unmatched, field_checks};

use answer::Refusal;
use fields::{Header, Job, Section};
use tree::Tree;

/// 2: the version is 1 or 2.
#[tactic(auto, unfolding(crate::specs::Rules::version_ok))]
pub fn version_ok(h: Header) -> bool
    ensures { result ≡ version_ok h }
{
    (1..=2).contains(&h.version)
}

// The service is total, cold or hot; with version 1 it is total.
#[tactic(auto, unfolding(crate::specs::Rules::service_ok))]
fn service_ok(h: Header) -> bool
    ensures { result ≡ service_ok h }
{
    if h.version == 1 {
        h.service == 0
    } else {
        h.service <= 2
    }
}

/// 3: each head field is in its range.
#[tactic(auto, unfolding(crate::specs::Rules::header_ok))]
pub fn header_ok(h: Header) -> bool
    ensures { result ≡ header_ok h }
{
    service_ok(h)
        && (2..=3).contains(&h.tenths)
        && (1..=63).contains(&h.sections)
        && (1..=24).contains(&h.hours)
        && h.meter <= 1000
        && h.guaranteed <= 6000
        && h.delivered <= 6000
        && (1..=3000).contains(&h.limit)
}

#[tactic(auto, unfolding(crate::specs::Rules::kind_ok))]
fn kind_ok(s: Section) -> bool
    ensures { result ≡ kind_ok s }
{
    if s.kind == 0 {
        s.fixtures == 0 && s.free == 0
    } else {
        s.kind <= 12 && 1 <= s.fixtures
    }
}

#[tactic(auto, unfolding(crate::specs::Rules::elevation_ok))]
fn elevation_ok(e: i16) -> bool
    ensures { result ≡ elevation_ok e }
{
    (-1000..=6000).contains(&e)
}

// Section i keeps its own fields' rules.
#[tactic(auto, unfolding(crate::specs::Rules::section_ok))]
fn section_ok(i: usize, s: Section) -> bool
    ensures { result ≡ section_ok i s }
{
    usize::from(s.parent) < i
        && kind_ok(s)
        && (1..=5000).contains(&s.decimetres)
        && elevation_ok(s.elevation)
        && s.free <= 1000
}

// 5: every section keeps its own fields' rules. (std's lemmas have chains over `a..b`, and none over `a..=b`.)
fn sections_ok(job: &Job) -> bool
    requires { count_of job.now ≤ 63 }
    ensures { result ≡ sections_ok job.now }
{
    (1..job.count() + 1).all(|i| section_ok(i, job.sections[i]))
}

// Kind 0 on section i, s, of which the set is its own bit alone.
#[tactic(auto, using(std::proofs::lemmas::Nat::one_shl))]
fn bare_end(s: Section, set: u64, i: usize) -> bool
    requires { i < 64 }
    ensures { result ≡ (eqb s.kind 0 && eqb set (2 ^ i)) }
{
    s.kind == 0 && set == 1u64 << i
}

// 6: a section that nobody has for a parent, whose set is its own bit alone, has kind 0.
fn childless_zero(tree: &Tree) -> bool
    ensures { result ≡ childless_zero tree.now.job.now }
{
    let job = tree.job;
    let below = tree.sets();
    // std's lemmas have chains over `a..b`, and none over `a..=b`.
    (1..job.count() + 1).any(|i| bare_end(job.sections[i], below[i], i))
}

// 7: a kind has residents without fixtures, or the reverse.
fn unmatched_kind(tree: &Tree) -> bool
    ensures { result ≡ unmatched tree.now.job.now }
{
    let house = tree.counts()[0];
    (0..12).any(|c| (tree.job.residents[c] == 0) != (house[c] == 0))
}

/// The first of 5, 6 and 7 that the job breaks, if it breaks one.
#[tactic(auto, using(crate::proofs::Kept::rooted_of), unfolding(crate::specs::Rules::field_checks, answer::specs::Checks::first_no))]
pub fn broken_rule(job: Job) -> Result<(), Refusal>
    requires { count_of job ≤ 63 }
    ensures { number_of result ≡ first_no (field_checks job) }
{
    if !sections_ok(&job) {
        return Err(Refusal::SectionRules);
    }
    let tree = Tree { job: &job };
    if childless_zero(&tree) {
        return Err(Refusal::ChildlessKind);
    }
    if unmatched_kind(&tree) {
        return Err(Refusal::Residents);
    }
    Ok(())
}
