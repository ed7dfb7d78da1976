// Which bits a rule may use.
ghost use Rattle.std.specs.Prelude.{◌≡◌};
ghost use Rattle.formula.specs.Symbols.{permitted};

use crate::symbol::Symbol;

// How many bits of each kind may be used: those from 0 up to, and without, the count.
#[derive(Clone, Copy, PartialEq, Eq, Debug)]
pub struct Scope {
    pub state: u8,
    pub moves: u8,
    pub answer: u8,
}

impl Scope {
    // Whether a rule of this scope may hold the symbol.
    pub fn permits(self, symbol: Symbol) -> bool
        ensures { result ≡ permitted self symbol }
    {
        match symbol {
            Symbol::State(i) => i < self.state,
            Symbol::Move(i) => i < self.moves,
            Symbol::Answer(i) => i < self.answer,
            Symbol::Unknown => false,
            _ => true,
        }
    }
}
