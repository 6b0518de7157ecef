// A tree of sections with a choice of sizes for each: definitions and laws, the tables that hold one, and the mark that they have.
#![tactic(auto)]

ghost use Rattle.nets.specs.Tables.{net_of, Sound};

/// The loss of a size that may not be taken. (Fixed memory: in the table an optional number would take twice the room. This loss is more than any head, so that most tests against a head need no case of their own.)
pub const TOP: u32 = 4294967295;

/// A net as tables: section s at place s, its size t at place 13 s + t. (Fixed memory: places for 63 sections and 12 sizes, found by number.)
// Losses and costs apart: a row of losses is lent as a slice, and one table of pairs is no plainer there.
#[derive(Clone, Copy)]
pub struct Tables {
    pub sections: usize,
    pub sizes: usize,
    pub parents: [u8; 64],
    pub needs: [u32; 64],
    pub losses: [u32; 832],
    pub costs: [u32; 832],
    pub ghost sound: { Sound (net_of sections sizes parents needs losses costs) },
}

impl Tables {
    ghost use Rattle.std.specs.Prelude.{◌≡◌, ℕ, ◌+◌, ◌*◌, ◌≤◌, ◌<◌, length, slice_index};
    ghost use Rattle.nets.specs.NetIn.{net_in};

    /// What section s loses with size t, `TOP` where it may not have it.
    pub fn loss(&self, s: usize, t: usize) -> u32
        requires { (s ≤ self.now.sections) × (t ≤ self.now.sizes) }
        ensures { result ≡ (net_in self.now).loss s t }
    {
        self.losses[s * 13 + t]
    }

    /// What size t costs in section s.
    pub fn cost(&self, s: usize, t: usize) -> u32
        requires { (s ≤ self.now.sections) × (t ≤ self.now.sizes) }
        ensures { result ≡ (net_in self.now).cost s t }
    {
        self.costs[s * 13 + t]
    }

    /// The losses of the sizes of section s.
    pub fn losses_of(&self, s: usize) -> &[u32]
        requires { s ≤ self.now.sections }
        ensures long { length result.now ≡ self.now.sizes }
        ensures is { (k : ℕ) → k < self.now.sizes →
            slice_index result.now k ≡ slice_index self.now.losses (s * 13 + (k + 1)) }
    {
        let at = s * 13;
        &self.losses[at + 1..=at + self.sizes]
    }
}
