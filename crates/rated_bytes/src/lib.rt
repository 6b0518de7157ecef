// The bytes of a rating result, and of the losses and heads results.
#![tactic(auto)]

ghost use Rattle.std.specs.Prelude.{◌≡◌, ◌+◌, ◌-◌, ◌*◌, ◌≤◌, length, drop, get_or};
ghost use Rattle.basis.specs.Range.{concat_to};
ghost use Rattle.basis.specs.Stored.{stored};
ghost use Rattle.rated_bytes.specs.Figures.{figure_of, figure_bytes};
ghost use Rattle.rated_bytes.specs.RatedBytes.{heads_length, heads_bytes};

use heads::JobWithLosses;
use wire::Field;

/// Flow, velocity in mm/s and loss in cm of a section.
#[derive(Clone, Copy, Default)]
pub struct Figure {
    pub flow: u32,
    pub velocity: u16,
    pub loss: u32,
}

impl Figure {
    // The ten bytes of a losses result.
    fn bytes(self) -> [u8; 10]
        ensures { result ≡ figure_bytes self }
    {
        let mut bytes = [0; 10];
        self.flow.put_at(&mut bytes, 0);
        self.velocity.put_at(&mut bytes, 4);
        self.loss.put_at(&mut bytes, 6);
        bytes
    }
}

/// The heads: required head, pump head and dictating section.
pub fn put_heads(out: &mut [u8], given: &JobWithLosses)
    requires { heads_length ≤ length out.old }
    ensures { out.new ≡ stored out.old 0 (heads_bytes given.now.job.now (λ i. get_or given.now.losses i 0)) }
{
    let heads = given.heads();
    heads.required.put_at(out, 0);
    heads.pump.put_at(out, 4);
    out[8] = heads.dictating;
}

/// How the sections stand in a result: the bytes before the first, and the bytes of each, which are the last of a section's ten.
#[derive(Clone, Copy)]
pub struct Layout {
    pub front: usize,
    pub each: usize,
}

impl Layout {
    /// A rating: the heads, then the sections without their flows.
    pub const RATING: Layout = Layout { front: 9, each: 6 };

    /// The losses.
    pub const LOSSES: Layout = Layout { front: 0, each: 10 };
}

/// The sections' figures at their places in a result.
pub fn put_sections(out: &mut [u8], layout: Layout, figures: &[Figure])
    requires { (layout.each ≤ 10) × (layout.front + layout.each * length figures.now ≤ length out.old) }
    ensures { out.new ≡ stored out.old layout.front
        (concat_to (length figures.now) (λ i. drop (10 - layout.each) (figure_bytes (figure_of figures.now i)))) }
{
    // By places, and not by chunks of the buffer: a chunk has a byte at least, and `each` may be 0.
    for (i, figure) in figures.iter().enumerate() {
        let bytes = figure.bytes();
        wire::put(
            out,
            layout.front + layout.each * i,
            &bytes[10 - layout.each..],
        );
    }
}
