// Why something that was given is refused. Every layer refuses with this enum, and every program prints it the same way.
ghost use Rattle.std.specs.Prelude.{◌≡◌, Some};
ghost use Rattle.game.specs.Refusals.{number_of, place_of, text_of};

use std::error::Error;
use std::fmt;

#[derive(Clone, Copy, PartialEq, Eq, Debug)]
pub enum Refusal {
    // the bytes end too early: their length
    CutOff { length: usize },
    // the bytes go on: the first too many
    GoesOn { at: usize },
    // a count of bits is too large: that byte
    Bits { at: usize },
    // a byte that stands for nothing, or a bit that the rule may not use: that byte
    Symbol { at: usize },
    // a formula is shorter or longer than its length says: the length byte
    Length { at: usize },
    // a count of promises, goals or starts is out of range: that byte
    Count { at: usize },
    // a start state has a bit too many: its first byte
    Start { at: usize },
    // lent memory is too short, by a number, as whoever makes a refusal may give any: 0 for that of the sets, 1 for the table's, 2 for the counterstrategy's
    Lent { which: usize },
    // a table does not hold together: the first state with a faulty row
    TableFault { state: usize },
    // a counterstrategy does not hold together: the first state with a faulty row
    WayFault { state: usize },
    // a start that the table, or the counterstrategy, does not know: its number among the starts
    UnknownStart { start: usize },
    // a move that the environment may not make in the state
    ForbiddenMove,
    // a state that the table does not know for the goal gone for
    UnknownState,
}

impl Refusal {
    // The number that a refusal is printed with.
    pub fn number(self) -> usize
        ensures { result ≡ number_of self }
    {
        match self {
            Refusal::CutOff { .. } => 1,
            Refusal::GoesOn { .. } => 1,
            Refusal::Bits { .. } => 2,
            Refusal::Symbol { .. } => 3,
            Refusal::Length { .. } => 4,
            Refusal::Count { .. } => 5,
            Refusal::Start { .. } => 6,
            Refusal::Lent { .. } => 7,
            Refusal::TableFault { .. } => 8,
            Refusal::WayFault { .. } => 9,
            Refusal::UnknownStart { .. } => 10,
            Refusal::ForbiddenMove => 11,
            Refusal::UnknownState => 11,
        }
    }

    // The place that it is printed with.
    pub fn place(self) -> usize
        ensures { result ≡ place_of self }
    {
        match self {
            Refusal::CutOff { length } => length,
            Refusal::GoesOn { at }
            | Refusal::Bits { at }
            | Refusal::Symbol { at }
            | Refusal::Length { at }
            | Refusal::Count { at }
            | Refusal::Start { at } => at,
            Refusal::TableFault { state } | Refusal::WayFault { state } => state,
            Refusal::UnknownStart { start } => start,
            Refusal::Lent { which } => which,
            Refusal::ForbiddenMove => 0,
            Refusal::UnknownState => 1,
        }
    }
}

// What the programs print of it.
impl fmt::Display for Refusal {
    ghost output = { λ r. Some (text_of r) };

    fn fmt<W: fmt::Write>(&self, f: &mut fmt::Formatter<W>) -> fmt::Result {
        let number = self.number();
        let place = self.place();
        write!(f, "refused {number} at {place}")
    }
}

impl Error for Refusal {}
