// Sixty-four steps at once, as a checker takes them: the bits of a row's bytes as words, and the states that steps lead to.
ghost use Rattle.std.specs.Prelude.{◌≡◌, ◌+◌, ◌^◌, ◌<◌, ◌≤◌, [], length, slice_index, slice_index_or};
ghost use Rattle.formula.specs.Values.{Spread};
ghost use Rattle.game.specs.Content.{content, formulas_of};
ghost use Rattle.game.specs.Meaning.{value_of};
ghost use Rattle.rows.specs.Lanes.{lane_number, Afters};

use crate::row::{Row, part};
use formula::bits::has_bit;
use formula::lanes::{Numbers, Steps};
use game::rules::Rules;
use std::array;

// The bytes of a row from a place on, one to a lane.
#[derive(Clone, Copy)]
pub struct Column<'a> {
    pub row: Row<'a>,
    pub from: u16,
}

impl Numbers for Column<'_> {
    ghost number = { λ c l. slice_index c.row.bytes.now (c.from + l) };

    fn bit(&self, i: u8) -> u64 {
        part(self.row.bytes, self.from as usize, 64)
            .iter()
            .rev()
            .fold(
                0,
                |word, byte| word << 1 | u64::from(has_bit(*byte as u64, i as usize)),
            )
    }
}

// The number whose bits are lane l of the words, the lowest first.
pub fn lane_number(words: &[u64], l: u8) -> u16
    requires { length words.now ≤ 16 }
    ensures value { result ≡ lane_number words.now l }
    ensures bound { result < 2 ^ length words.now }
{
    words.iter().rev().fold(
        0,
        |number, word| number << 1 | u16::from(has_bit(*word, l as usize)),
    )
}

// Bit i of the states after the steps of the lanes. Where there are fewer bits it is 0, and nothing is evaluated.
fn bit_after<S: Numbers, M: Numbers, A: Numbers>(
    rules: &Rules,
    steps: &Steps<S, M, A>,
    i: usize,
) -> u64
    ensures { let next = formulas_of rules.now.steps.next.count rules.now.steps.next.bytes.now in
        Spread result (λ l. value_of (slice_index_or next i []) (S.number steps.now.states l) (M.number steps.now.moves l) (A.number steps.now.answers l)) }
{
    if i < rules.steps.next.count as usize {
        rules.steps.next.formula(i as u8).values(steps)
    } else {
        0
    }
}

// The states after the steps of the lanes: word i has bit i of each.
pub fn afters<S: Numbers, M: Numbers, A: Numbers>(
    rules: &Rules,
    steps: &Steps<S, M, A>,
) -> [u64; 12]
    ensures { Afters (content rules.now) (S.number steps.now.states) (M.number steps.now.moves) (A.number steps.now.answers) result }
{
    array::from_fn(|i| bit_after(rules, steps, i))
}
