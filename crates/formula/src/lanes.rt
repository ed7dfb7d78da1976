// Sixty-four steps at once: bit l of a word, its lane l, is for the step of lane l.
ghost use Rattle.std.specs.Prelude.{◌≡◌, ℕ, ◌+◌, ◌*◌};
ghost use Rattle.formula.specs.Bits.{bit};
ghost use Rattle.formula.specs.Values.{Spread};

use crate::bits::has_bit;

// The numbers of one kind in the lanes: of the states, of the moves or of the answers.
pub trait Numbers {
    // the number of lane l
    ghost number: { Self → ℕ → ℕ };

    // The word of their bits i.
    fn bit(&self, i: u8) -> u64
        ensures { Spread result (λ l. bit (number self.now l) i) };
}

// One number, the same in every lane.
#[derive(Clone, Copy)]
pub struct Same {
    pub number: u16,
}

// The 64 neighbouring numbers of a block: 64 * block + l in lane l.
#[derive(Clone, Copy)]
pub struct Neighbours {
    pub block: u16,
}

// The steps of the lanes: from which states, at which moves and answers.
#[derive(Clone, Copy)]
pub struct Steps<S, M, A> {
    pub states: S,
    pub moves: M,
    pub answers: A,
}

impl<S> Steps<S, Same, Same> {
    // The steps from these states, all at one move and one answer.
    pub fn from_states(states: S, moved: u8, answer: u8) -> Steps<S, Same, Same>
        ensures states { result.states ≡ states }
        ensures moved { result.moves.number ≡ moved }
        ensures answer { result.answers.number ≡ answer }
    {
        Steps {
            states,
            moves: Same {
                number: moved as u16,
            },
            answers: Same {
                number: answer as u16,
            },
        }
    }
}

impl Steps<Same, Same, Same> {
    // One step, the same in every lane.
    pub fn one(state: u16, moved: u8, answer: u8) -> Steps<Same, Same, Same>
        ensures state { result.states.number ≡ state }
        ensures moved { result.moves.number ≡ moved }
        ensures answer { result.answers.number ≡ answer }
    {
        Steps::from_states(Same { number: state }, moved, answer)
    }
}

impl Steps<Neighbours, Same, Same> {
    // The steps from the 64 states of a block.
    pub fn block(block: u16, moved: u8, answer: u8) -> Steps<Neighbours, Same, Same>
        ensures block { result.states.block ≡ block }
        ensures moved { result.moves.number ≡ moved }
        ensures answer { result.answers.number ≡ answer }
    {
        Steps::from_states(Neighbours { block }, moved, answer)
    }
}

// Bits 0 to 5 of the numbers of a block are those of the lane's own number.
const OF_LANE: [u64; 6] = [
    0xaaaa_aaaa_aaaa_aaaa,
    0xcccc_cccc_cccc_cccc,
    0xf0f0_f0f0_f0f0_f0f0,
    0xff00_ff00_ff00_ff00,
    0xffff_0000_ffff_0000,
    0xffff_ffff_0000_0000,
];

// The same value in every lane. An if is plainer here than u64::MAX * u64::from(value).
pub(crate) fn spread(value: bool) -> u64
    ensures { Spread result (λ _. value) }
{
    if value { u64::MAX } else { 0 }
}

impl Numbers for Same {
    ghost number = { λ s _. s.number };

    fn bit(&self, i: u8) -> u64 {
        spread(has_bit(self.number as u64, i as usize))
    }
}

impl Numbers for Neighbours {
    ghost number = { λ b l. 64 * b.block + l };

    fn bit(&self, i: u8) -> u64 {
        if i < 6 {
            OF_LANE[i as usize]
        } else {
            let block = Same { number: self.block };
            block.bit(i - 6)
        }
    }
}
