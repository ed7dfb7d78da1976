// The memory that a caller lends the solver.
ghost use Rattle.std.specs.Prelude.{◌≡◌};
ghost use Rattle.solver.specs.Rules.{refused_lent};

use game::refusal::Refusal;

// For the table with reasons: a set of known states, and goal by goal, state by state, an answer to each move, a rank
// and a promise waited for.
#[derive(Drop)]
pub struct Table<'a> {
    pub known: &'a mut [u8],
    pub answers: &'a mut [u8],
    pub ranks: &'a mut [u16],
    pub waits: &'a mut [u8],
}

// For the counterstrategy: state by state a layer and a goal to be kept away from, and promise by promise, state by
// state, a move and a rank.
#[derive(Drop)]
pub struct Way<'a> {
    pub layers: &'a mut [u16],
    pub avoids: &'a mut [u8],
    pub moves: &'a mut [u8],
    pub ranks: &'a mut [u16],
}

// Which of the lent slices are too short.
#[derive(Clone, Copy, PartialEq, Eq, Debug)]
pub enum Short {
    Sets,
    Tables,
    Way,
}

impl From<Short> for Refusal {
    ghost from_gives = { λ short refusal. refusal ≡ refused_lent short };

    fn from(short: Short) -> Refusal {
        match short {
            Short::Sets => Refusal::Lent { which: 0 },
            Short::Tables => Refusal::Lent { which: 1 },
            Short::Way => Refusal::Lent { which: 2 },
        }
    }
}

// Who wins from a state: the controller, with the rounds that the outer loop took, or the environment, with the state's
// layer.
#[derive(Clone, Copy, PartialEq, Eq, Debug)]
pub enum Outcome {
    Won { rounds: u32 },
    Lost { layer: u16 },
}
