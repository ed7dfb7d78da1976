// Every move in a state at once, and every answer to a move: lane l is for the move, or for the answer, l.
ghost use Rattle.std.specs.Prelude.{◌^◌, min, nat_lt};
ghost use Rattle.formula.specs.Values.{Spread};
ghost use Rattle.game.specs.Content.{content};
ghost use Rattle.game.specs.Meaning.{game_of, value_of};

use formula::Formula;
use formula::lanes::{Neighbours, Same, Steps};
use game::rules::Rules;

// The answers to one move in one state.
#[derive(Clone, Copy)]
pub(crate) struct Answers {
    pub state: u16,
    pub moved: u8,
}

impl Answers {
    // The values of a formula at each of them.
    pub fn values(self, formula: Formula<'_>) -> u64
        ensures { Spread result (value_of formula.entry.bytes.now self.state self.moved) }
    {
        formula.values(&Steps {
            states: Same { number: self.state },
            moves: Same {
                number: self.moved as u16,
            },
            answers: Neighbours { block: 0 },
        })
    }
}

// The values of a formula at each move in one state. The move rule has no bits of an answer, so the answer is 0.
fn move_values(formula: Formula<'_>, state: u16) -> u64
    ensures { Spread result (λ e. value_of formula.entry.bytes.now state e 0) }
{
    formula.values(&Steps {
        states: Same { number: state },
        moves: Neighbours { block: 0 },
        answers: Same { number: 0 },
    })
}

// Ones in the lanes of the numbers of at most 0, 1, .. 6 bits.
const FIRST: [u64; 7] = [
    0x1,
    0x3,
    0xf,
    0xff,
    0xffff,
    0xffff_ffff,
    0xffff_ffff_ffff_ffff,
];

// Ones in the lanes whose number has at most so many bits; more than 6 bits are taken as 6.
#[tactic(auto, using(crate::proofs::LaneWords::first_lanes))]
fn first_lanes(bits: u8) -> u64
    ensures { Spread result (λ l. nat_lt l (2 ^ min bits 6)) }
{
    FIRST[bits.min(6) as usize]
}

// The moves that the environment may make in the state, one bit each.
pub(crate) fn legal_moves(rules: &Rules<'_>, state: u16) -> u64
    ensures { Spread result ((game_of (content rules.now)).moves state) }
{
    if (state as u32) < rules.widths.states() {
        move_values(rules.steps.moves, state) & first_lanes(rules.widths.moves)
    } else {
        0
    }
}

// The answers that are allowed to the move in the state, one bit each.
#[tactic(auto, using(crate::proofs::LaneWords::allowed_word))]
pub(crate) fn allowed_answers(rules: &Rules<'_>, step: Answers) -> u64
    ensures { Spread result ((game_of (content rules.now)).allowed step.state step.moved) }
{
    if (step.state as u32) < rules.widths.states() && (step.moved as u32) < rules.widths.moves() {
        step.values(rules.steps.answers) & first_lanes(rules.widths.answer)
    } else {
        0
    }
}
