// What a byte of a formula stands for.
ghost use Rattle.std.specs.Prelude.{◌≡◌};
ghost use Rattle.formula.specs.Symbols.{symbol_of, arity_of};

// A bit goes by its number: bit 0 is the lowest of the state, the move or the answer.
#[derive(Clone, Copy, PartialEq, Eq, Debug)]
pub enum Symbol {
    Constant(bool),
    Not,
    And,
    Or,
    Equal,
    State(u8),
    Move(u8),
    Answer(u8),
    // of every other byte: each byte has a symbol, since a row that was never read has a meaning too
    Unknown,
}

impl From<u8> for Symbol {
    ghost from_gives = { λ byte symbol. symbol ≡ symbol_of byte };

    fn from(byte: u8) -> Symbol {
        match byte {
            0 => Symbol::Constant(false),
            1 => Symbol::Constant(true),
            2 => Symbol::Not,
            3 => Symbol::And,
            4 => Symbol::Or,
            5 => Symbol::Equal,
            16..=31 => Symbol::State(byte - 16),
            32..=47 => Symbol::Move(byte - 32),
            48..=63 => Symbol::Answer(byte - 48),
            _ => Symbol::Unknown,
        }
    }
}

impl Symbol {
    // How many formulas follow as its operands.
    pub fn arity(self) -> usize
        ensures { result ≡ arity_of self }
    {
        match self {
            Symbol::Not => 1,
            Symbol::And | Symbol::Or | Symbol::Equal => 2,
            _ => 0,
        }
    }
}
