// Four numbers of 16 bits in a word, and the numbers that formulas spell, 64 at once in sixteen such words.
ghost use Rattle.std.specs.Prelude.{◌≡◌, ◌*◌, ◌<◌, ◌≤◌, length};
ghost use Rattle.game.specs.Content.{formulas_of};
ghost use Rattle.sets.specs.Packed.{Doubled, FitsDoubled, Spelt, digit, field, four};

use crate::lanes::Answers;
use game::section::cut;

// How many words have room for 64 numbers.
pub(crate) const WORDS: usize = 16;

// Each bit of a number below 16 in a field of its own.
const APART: [u64; 16] = [
    0x0,
    0x1,
    0x1_0000,
    0x1_0001,
    0x1_0000_0000,
    0x1_0000_0001,
    0x1_0001_0000,
    0x1_0001_0001,
    0x1_0000_0000_0000,
    0x1_0000_0000_0001,
    0x1_0000_0001_0000,
    0x1_0000_0001_0001,
    0x1_0001_0000_0000,
    0x1_0001_0000_0001,
    0x1_0001_0001_0000,
    0x1_0001_0001_0001,
];

// The lanes 4·q to 4·q + 3 of a word, each in a field of its own.
#[tactic(auto, using(crate::proofs::Packings::apart_digits))]
fn apart(word: u64, q: usize) -> u64
    requires { q < 16 }
    ensures { result ≡ four (digit word) (4 * q) }
{
    APART[((word >> (4 * q)) % 16) as usize]
}

// Number j of the four in a word.
pub(crate) fn field_of(word: u64, j: usize) -> u16
    requires { j < 4 }
    ensures { result ≡ field word j }
{
    ((word >> (16 * j)) % 65536) as u16
}

// Doubles the number of each lane and adds the lane's bit in `values`.
fn double(packed: &mut [u64; WORDS], values: u64)
    requires { FitsDoubled values packed.old }
    ensures { Doubled values packed.old packed.new }
{
    for (q, word) in packed.iter_mut().enumerate() {
        *word = 2 * *word + apart(values, q);
    }
}

// In each lane of the mask the number whose bits are the values of the first n formulas, the lowest first; 0 in the
// other lanes. The highest bit comes first, so that each formula doubles the numbers and adds its values.
pub(crate) fn spell(bytes: &[u8], n: u8, step: Answers, mask: u64, packed: &mut [u64; WORDS])
    requires { n ≤ 16 }
    ensures { Spelt (formulas_of n bytes.now) step.state step.moved mask packed.new }
{
    if n == 0 {
        packed.fill(0);
        return;
    }
    let (first, others) = cut(bytes);
    spell(others, n - 1, step, mask, packed);
    double(packed, step.values(first) & mask);
}
