// Numbers in byte slices, the highest byte first, and signed ones in two's complement.
#![tactic(auto)]

ghost use Rattle.std.specs.Prelude.{◌≡◌, ℕ, ◌+◌, ◌*◌, ◌≤◌, length};
ghost use Rattle.std.specs.List.{flat_map};
ghost use Rattle.basis.specs.Stored.{stored};
ghost use Rattle.wire.specs.Wire.{be_at, bytes_of, signed_of, bits_of};

/// A number as a record has it.
pub trait Field: Copy {
    /// How many bytes it has.
    const WIDTH: usize;

    ghost WIDTH: { ℕ };

    // What the number in its bytes stands for, and back.
    ghost value: { ℕ → Self };

    ghost bits: { Self → ℕ };

    /// The number in the bytes from i on.
    fn at(s: &[u8], i: usize) -> Self
        requires { i + WIDTH ≤ length s.now }
        ensures { result ≡ value (be_at WIDTH s.now i) };

    /// Writes it to the bytes from i on.
    fn put_at(self, s: &mut [u8], i: usize)
        requires { i + WIDTH ≤ length s.old }
        ensures { s.new ≡ stored s.old i (bytes_of WIDTH (bits self)) };
}

impl Field for u16 {
    const WIDTH: usize = 2;

    ghost WIDTH = { 2 };

    ghost value = { λ n. n };

    ghost bits = { λ n. n };

    #[tactic(auto, using(crate::proofs::Bits::from_be_two))]
    fn at(s: &[u8], i: usize) -> u16 {
        u16::from_be_bytes([s[i], s[i + 1]])
    }

    #[tactic(auto, using(crate::proofs::Bits::to_be_two))]
    fn put_at(self, s: &mut [u8], i: usize) {
        put(s, i, &self.to_be_bytes())
    }
}

impl Field for u32 {
    const WIDTH: usize = 4;

    ghost WIDTH = { 4 };

    ghost value = { λ n. n };

    ghost bits = { λ n. n };

    #[tactic(auto, using(crate::proofs::Bits::from_be_four))]
    fn at(s: &[u8], i: usize) -> u32 {
        u32::from_be_bytes([s[i], s[i + 1], s[i + 2], s[i + 3]])
    }

    #[tactic(auto, using(crate::proofs::Bits::to_be_four))]
    fn put_at(self, s: &mut [u8], i: usize) {
        put(s, i, &self.to_be_bytes())
    }
}

impl Field for i16 {
    const WIDTH: usize = 2;

    ghost WIDTH = { 2 };

    ghost value = { signed_of 16 };

    ghost bits = { bits_of 16 };

    #[tactic(auto, using(crate::proofs::Bits::signed_held))]
    fn at(s: &[u8], i: usize) -> i16 {
        u16::at(s, i).cast_signed()
    }

    #[tactic(auto, using(crate::proofs::Bits::bits_held))]
    fn put_at(self, s: &mut [u8], i: usize) {
        self.cast_unsigned().put_at(s, i)
    }
}

impl Field for i32 {
    const WIDTH: usize = 4;

    ghost WIDTH = { 4 };

    ghost value = { signed_of 32 };

    ghost bits = { bits_of 32 };

    #[tactic(auto, using(crate::proofs::Bits::signed_held))]
    fn at(s: &[u8], i: usize) -> i32 {
        u32::at(s, i).cast_signed()
    }

    #[tactic(auto, using(crate::proofs::Bits::bits_held))]
    fn put_at(self, s: &mut [u8], i: usize) {
        self.cast_unsigned().put_at(s, i)
    }
}

/// Writes the bytes x from i on. (One call of std, which the clause ties to `stored`.)
pub fn put(s: &mut [u8], i: usize, x: &[u8])
    requires { i + length x.now ≤ length s.old }
    ensures { s.new ≡ stored s.old i x.now }
{
    s[i..i + x.len()].copy_from_slice(x);
}

/// Writes the numbers one after another, from a place on.
pub fn put_all<T: Field>(s: &mut [u8], from: usize, numbers: &[T])
    requires { from + T.WIDTH * length numbers.now ≤ length s.old }
    ensures { s.new ≡ stored s.old from (flat_map (λ number. bytes_of T.WIDTH (T.bits number)) numbers.now) }
{
    for (i, number) in numbers.iter().enumerate() {
        number.put_at(s, from + T::WIDTH * i);
    }
}
