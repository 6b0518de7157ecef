// The lines of the sheet: a word, figures after a space each, and a newline.
#![tactic(auto)]

ghost use Rattle.std.specs.Prelude.{◌≡◌, ◌+◌, ◌*◌, ◌≤◌, ◌++◌, length, map};
ghost use Rattle.text.specs.Figures.{decimal};
ghost use Rattle.lines.specs.Lines.{spaced, house_line, section_line, head_line, refused_line};

use text::Text;

// A function for each line, as they differ in word and figures: what they share is the one call of `put_figures`.

/// Hour, day and mean hour.
#[tactic(auto, using(crate::proofs::Spaced::pieces), unfolding(crate::specs::Lines::house_line))]
pub fn put_house<const ROOM: usize>(text: &mut Text<ROOM>, hour: u32, day: u32, mean: u32)
    requires { length text.old + 39 ≤ ROOM }
    ensures bytes { text.new ≡ text.old ++ house_line hour day mean }
    ensures room { length text.new ≤ length text.old + 39 }
{
    text.push_word(b"house");
    put_figures(text, &[hour, day, mean]);
}

/// Number, flow, velocity and loss of a section.
#[tactic(auto, using(crate::proofs::Spaced::pieces), unfolding(crate::specs::Lines::section_line))]
pub fn put_section<const ROOM: usize>(
    text: &mut Text<ROOM>,
    i: u32,
    flow: u32,
    velocity: u32,
    loss: u32,
)
    requires { length text.old + 52 ≤ ROOM }
    ensures bytes { text.new ≡ text.old ++ section_line i flow velocity loss }
    ensures room { length text.new ≤ length text.old + 52 }
{
    text.push_word(b"section");
    put_figures(text, &[i, flow, velocity, loss]);
}

/// Required head, pump head and dictating section.
#[tactic(auto, using(crate::proofs::Spaced::pieces), unfolding(crate::specs::Lines::head_line, crate::specs::Lines::spaced))]
pub fn put_head<const ROOM: usize>(text: &mut Text<ROOM>, required: i32, pump: u32, dictating: u32)
    requires { length text.old + 39 ≤ ROOM }
    ensures bytes { text.new ≡ text.old ++ head_line required pump dictating }
    ensures room { length text.new ≤ length text.old + 39 }
{
    text.push_word(b"head");
    text.push_signed(required);
    put_figures(text, &[pump, dictating]);
}

/// A refusal's number.
#[tactic(auto, using(crate::proofs::Spaced::pieces), unfolding(crate::specs::Lines::refused_line))]
pub fn put_refused<const ROOM: usize>(text: &mut Text<ROOM>, number: u32)
    requires { length text.old + 19 ≤ ROOM }
    ensures bytes { text.new ≡ text.old ++ refused_line number }
    ensures room { length text.new ≤ length text.old + 19 }
{
    text.push_word(b"refused");
    put_figures(text, &[number]);
}

// The figures of a line, and its newline.
#[tactic(auto, using(crate::proofs::Spaced::pieces))]
fn put_figures<const ROOM: usize>(text: &mut Text<ROOM>, figures: &[u32])
    requires { length text.old + (11 * length figures.now + 1) ≤ ROOM }
    ensures bytes { text.new ≡ text.old ++ spaced (map decimal figures.now) }
    ensures room { length text.new ≤ length text.old + (11 * length figures.now + 1) }
{
    for n in figures {
        text.push_figure(*n);
    }
    text.push(b'\n');
}
