// The values of a formula, in 64 steps at once: a recursion over its bytes, on what is left of them.
ghost use Rattle.formula.specs.Values.{Valued};

use crate::lanes::{Numbers, Steps, spread};
use crate::symbol::Symbol;

// The values of the first formula in the row, and what is left of the row after it.
pub(crate) fn first<'a, S: Numbers, M: Numbers, A: Numbers>(
    bytes: &'a [u8],
    steps: &Steps<S, M, A>,
) -> (u64, &'a [u8])
    ensures { Valued bytes.now result.1.now (S.number steps.now.states) (M.number steps.now.moves) (A.number steps.now.answers) result.0 }
{
    let [byte, rest @ ..] = bytes else {
        return (spread(false), bytes);
    };
    match Symbol::from(*byte) {
        Symbol::Constant(value) => (spread(value), rest),
        Symbol::State(i) => (steps.states.bit(i), rest),
        Symbol::Move(i) => (steps.moves.bit(i), rest),
        Symbol::Answer(i) => (steps.answers.bit(i), rest),
        Symbol::Unknown => (spread(false), rest),
        Symbol::Not => {
            let (x, rest) = first(rest, steps);
            (!x, rest)
        }
        operator @ (Symbol::And | Symbol::Or | Symbol::Equal) => {
            let (x, rest) = first(rest, steps);
            let (y, rest) = first(rest, steps);
            let word = match operator {
                Symbol::And => x & y,
                Symbol::Or => x | y,
                _ => !(x ^ y),
            };
            (word, rest)
        }
    }
}
