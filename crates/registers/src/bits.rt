// The bits of a word that is written to a register.
ghost use Rattle.std.specs.Prelude.{◌≡◌, ◌%◌};
ghost use Rattle.words.specs.Bits.{bit};

// Bit i of a word; i counts modulo 32, as in a shift.
pub(crate) fn bit(v: u32, i: u32) -> bool
    ensures { result ≡ bit v (i % 32) }
{
    v.wrapping_shr(i) % 2 == 1
}
