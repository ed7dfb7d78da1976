// How many bits states, moves and answers have, and so which bits a rule may use.
ghost use Rattle.std.specs.Prelude.{◌≡◌, ◌^◌, ◌<◌, min};
ghost use Rattle.game.specs.Content.{move_scope, step_scope, state_scope};

use formula::scope::Scope;

// The most bits of each.
pub const STATE_BITS: u8 = 12;

pub const MOVE_BITS: u8 = 6;

pub const ANSWER_BITS: u8 = 6;

// The counts that a file begins with; a `Scope` says which of these bits one rule may use.
#[derive(Clone, Copy, PartialEq, Eq, Debug)]
pub struct Widths {
    pub state: u8,
    pub moves: u8,
    pub answer: u8,
}

// How many numbers have so many bits; a count of bits above the limit is taken as the limit.
fn numbers(bits: u8, most: u8) -> u32
    requires { most < 32 }
    ensures { result ≡ 2 ^ min bits most }
{
    1 << bits.min(most)
}

// The three scopes have names of their own, since the definitions do: each is the one before without the last bits.
impl Widths {
    // The bits of the answer rule and of the values after a step.
    pub fn step_scope(self) -> Scope
        ensures { result ≡ step_scope self.state self.moves self.answer }
    {
        Scope {
            state: self.state,
            moves: self.moves,
            answer: self.answer,
        }
    }

    // The bits of the move rule.
    pub fn move_scope(self) -> Scope
        ensures { result ≡ move_scope self.state self.moves }
    {
        Scope {
            answer: 0,
            ..self.step_scope()
        }
    }

    // The bits of promises and goals.
    pub fn state_scope(self) -> Scope
        ensures { result ≡ state_scope self.state }
    {
        Scope {
            moves: 0,
            ..self.move_scope()
        }
    }

    // How many states there are; a count of bits above the limit is taken as the limit.
    pub fn states(self) -> u32
        ensures { result ≡ 2 ^ min self.state 12 }
    {
        numbers(self.state, STATE_BITS)
    }

    // How many moves.
    pub fn moves(self) -> u32
        ensures { result ≡ 2 ^ min self.moves 6 }
    {
        numbers(self.moves, MOVE_BITS)
    }

    // How many answers.
    pub fn answers(self) -> u32
        ensures { result ≡ 2 ^ min self.answer 6 }
    {
        numbers(self.answer, ANSWER_BITS)
    }
}
