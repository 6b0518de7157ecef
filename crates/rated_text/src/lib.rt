// The text for a job, a catalogue and a size list: the lines of the rating, or the line of a refusal.
#![tactic(auto)]

ghost use Rattle.std.specs.Prelude.{◌≡◌, ◌+◌, ◌*◌, ◌≤◌, ◌++◌, length, get_or};
ghost use Rattle.basis.specs.Range.{concat_to};
ghost use Rattle.rated_bytes.specs.Figures.{blank_figure, figure_of};
ghost use Rattle.rating.specs.Steps.{losses_in};
ghost use Rattle.lines.specs.Lines.{section_line, refused_line};
ghost use Rattle.rated_text.specs.RatedText.{lines_of, text_of};

use lines::{put_head, put_house, put_refused, put_section};
use rated_bytes::{Figure, Layout};
use rating::Rating;
use text::Text;

// The sections' lines.
fn put_sections(text: &mut Text<4096>, figures: &[Figure])
    requires { (length figures.now ≤ 63) × (length text.old + 52 * length figures.now ≤ 4096) }
    ensures bytes { text.new ≡ text.old ++ concat_to (length figures.now)
        (λ i. section_line i (figure_of figures.now i).flow (figure_of figures.now i).velocity (figure_of figures.now i).loss) }
    ensures room { length text.new ≤ length text.old + 52 * length figures.now }
{
    for (number, f) in (1u32..).zip(figures) {
        put_section(text, number, f.flow, u32::from(f.velocity), f.loss);
    }
}

// House, sections and heads.
#[tactic(auto, using(demand::proofs::Validity::valid_count))]
fn rated(rating: &Rating) -> Text<4096>
    ensures { result ≡ lines_of rating.now.accepted.job (λ i. (get_or rating.now.figures i blank_figure).velocity)
        (λ i. get_or (losses_in rating.now.figures) i 0) }
{
    let accepted = &rating.accepted;
    let mut text = Text::new();
    put_house(&mut text, accepted.hour(), accepted.day(), accepted.mean());
    put_sections(&mut text, rating.sections());
    let heads = rating.with_losses().heads();
    put_head(
        &mut text,
        heads.required,
        heads.pump,
        u32::from(heads.dictating),
    );
    text
}

// The line of a refusal.
fn refused(number: u32) -> Text<4096>
    ensures { result ≡ refused_line number }
{
    let mut text = Text::new();
    put_refused(&mut text, number);
    text
}

/// A rating's lines, or the line of a refusal. Nothing is lent for a result, so it is rated with room for the longest, 9 + 6 × 63 bytes.
pub fn text_of(b: &[u8], cat: &[u8], list: &[u8]) -> Text<4096>
    ensures { result ≡ text_of b.now cat.now list.now }
{
    match rating::outcome(b, cat, list, 387, Layout::RATING) {
        Ok(rating) => rated(&rating),
        Err(refusal) => refused(u32::from(refusal)),
    }
}
