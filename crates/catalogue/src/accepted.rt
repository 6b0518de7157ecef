// Refusals 10 and 11: any bytes are a catalogue or not.
ghost use Rattle.std.specs.Prelude.{◌≡◌, ◌+◌, ◌*◌, ◌≤◌, ◌<◌, true, length, IfOk};
ghost use Rattle.std.specs.List.{concat};
ghost use Rattle.answer.specs.Answer.{number_of};
ghost use Rattle.catalogue.specs.Layout.{rows_of};
ghost use Rattle.catalogue.specs.Rules.{shape_ok, row_ok, rises_at, rows_ok, size_ok, sizes_ok, cat_no};
ghost use Rattle.catalogue.specs.Steps.{Sized, Bytes, AcceptedCat};

use crate::layout::{bore, price, row_at, rows_at, rows_of, sizes_of};
use answer::Refusal;
use wire::Field;

// 10: length, version and counts.
#[tactic(auto, unfolding(crate::specs::Rules::shape_ok))]
fn shape_ok(cat: &[u8]) -> bool
    ensures { result ≡ shape_ok cat.now }
{
    if cat.len() < 7 {
        return false;
    }
    let sizes = usize::from(sizes_of(cat));
    let rows = usize::from(rows_of(cat));
    // std has no `From` of u32 for usize; each u32 fits.
    cat[4] == 1
        && (1..=12).contains(&sizes)
        && (2..=64).contains(&rows)
        && u32::at(cat, 0) as usize == cat.len()
        && cat.len() == 7 + sizes * (4 + 8 * rows)
}

// Row k on its own.
#[tactic(auto, unfolding(crate::specs::Rules::row_ok))]
fn row_ok(rows: &[[u8; 8]], k: usize) -> bool
    requires { k < length rows.now }
    ensures { result ≡ row_ok (concat rows.now) k }
{
    let row = row_at(rows, k);
    (1..=1_000_000).contains(&row.flow) && 1 <= row.velocity && 1 <= row.slope
}

// Row k, from 1, against the row before it. (By places and not by `windows`: the definition is of a place too.)
#[tactic(auto, unfolding(crate::specs::Rules::rises_at))]
fn rises_at(rows: &[[u8; 8]], k: usize) -> bool
    requires { (0 < k) × (k < length rows.now) }
    ensures { result ≡ rises_at (concat rows.now) k }
{
    let before = row_at(rows, k - 1);
    let row = row_at(rows, k);
    before.flow < row.flow && before.velocity <= row.velocity && before.slope <= row.slope
}

// Every row.
fn rows_ok(rows: &[[u8; 8]]) -> bool
    requires { 1 ≤ length rows.now }
    ensures { result ≡ rows_ok (concat rows.now) (length rows.now) }
{
    row_ok(rows, 0) && (1..rows.len()).all(|k| row_ok(rows, k) && rises_at(rows, k))
}

// Size s.
#[tactic(auto, unfolding(crate::specs::Rules::size_ok))]
fn size_ok(cat: &[u8], s: usize) -> bool
    requires { Sized cat.now s × (2 ≤ rows_of cat.now) }
    ensures { result ≡ size_ok cat.now s }
{
    1 <= bore(cat, s)
        && (s == 1 || bore(cat, s - 1) < bore(cat, s))
        && (1..=10000).contains(&price(cat, s))
        && rows_ok(rows_at(cat, s))
}

// 11: every size. (std's lemmas have chains over `a..b`, and none over `a..=b`.)
#[tactic(auto, using(crate::proofs::ShapeBounds::shape_in))]
fn sizes_ok(cat: &[u8]) -> bool
    requires { shape_ok cat.now ≡ true }
    ensures { result ≡ sizes_ok cat.now }
{
    (1..usize::from(sizes_of(cat)) + 1).all(|s| size_ok(cat, s))
}

/// A catalogue that 10 and 11 let pass.
#[derive(Clone, Copy)]
pub struct Catalogue<'a> {
    pub bytes: &'a [u8],
    pub ghost accepted: { AcceptedCat bytes.now },
    // Their bound: of a slice in a struct the type does not tell it to a proof.
    pub ghost fit: { Bytes bytes.now },
}

impl Catalogue<'_> {
    ghost use Rattle.catalogue.specs.Layout.{sizes_of, price_of};

    /// The number of sizes.
    #[tactic(auto, using(crate::proofs::ShapeBounds::shape_in))]
    pub fn sizes(&self) -> u8
        ensures { result ≡ sizes_of self.now.bytes.now }
    {
        sizes_of(self.bytes)
    }

    /// The price of size s per metre.
    pub fn price(&self, s: usize) -> u16
        requires { (0 < s) × (s ≤ sizes_of self.now.bytes.now) }
        ensures { result ≡ price_of self.now.bytes.now s }
    {
        price(self.bytes, s)
    }
}

/// Any bytes are an accepted catalogue or get 10 or 11.
#[tactic(auto, unfolding(crate::specs::Rules::cat_no, crate::specs::Rules::cat_checks, answer::specs::Checks::first_no))]
pub fn accept(bytes: &[u8]) -> Result<Catalogue<'_>, Refusal>
    ensures number { number_of result ≡ cat_no bytes.now }
    ensures catalogue { IfOk result (λ catalogue. catalogue.bytes.now ≡ bytes.now) }
{
    if !shape_ok(bytes) {
        return Err(Refusal::CatalogueShape);
    }
    if !sizes_ok(bytes) {
        return Err(Refusal::CatalogueRules);
    }
    Ok(Catalogue { bytes })
}
