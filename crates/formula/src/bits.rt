// The bits of a number.
ghost use Rattle.std.specs.Prelude.{◌≡◌};
ghost use Rattle.formula.specs.Bits.{bit};

// Bit i of a number: bit 0 is the lowest.
pub fn has_bit(n: u64, i: usize) -> bool
    ensures { result ≡ bit n i }
{
    i < 64 && (n >> i) % 2 == 1
}
