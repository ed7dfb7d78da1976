// The rules of a game, as they stand in a file that is lent: nothing is copied, and want of memory is no outcome of reading.
ghost use Rattle.std.specs.Prelude.{◌≡◌, IfOk, MatchResult};
ghost use Rattle.game.specs.Content.{Content, Valid, content, file_of};
ghost use Rattle.game.specs.Reading.{Reads};

use crate::reader::Reader;
use crate::refusal::Refusal;
use crate::widths::Widths;
use formula::Formula;
use std::marker::PhantomData;

// The most promises, goals and start states.
pub const PROMISES: u8 = 8;

pub const GOALS: u8 = 8;

pub const STARTS: u8 = 16;

// What stands in a table, and in the memory that the solver writes, where no promise is waited for.
pub const NO_PROMISE: u8 = 8;

// The most bytes of a rules file: three counts of bits, and with their lengths two step rules, a formula for each of 12
// state bits, 8 promises and 8 goals; three counts, and 16 starts of two bytes.
pub const MOST_FILE: u64 = 3 + 256 * (2 + 12 + 8 + 8) + 3 + 2 * 16;

// The kinds of parts that stand in rows: formulas, each after its length, and states of two bytes.
#[derive(Clone, Copy)]
pub struct Formulas;

#[derive(Clone, Copy)]
pub struct States;

// So many parts one after the other, formulas if nothing else is said; bytes of the file may follow.
#[derive(Clone, Copy)]
pub struct Section<'a, P = Formulas> {
    pub count: u8,
    pub bytes: &'a [u8],
    pub of: PhantomData<P>,
}

// Start states.
pub type Starts<'a> = Section<'a, States>;

// What may happen in a step: the move rule, the answer rule, and each state bit's value after the step.
#[derive(Clone, Copy)]
pub struct StepRules<'a> {
    pub moves: Formula<'a>,
    pub answers: Formula<'a>,
    pub next: Section<'a>,
}

#[derive(Clone, Copy)]
pub struct Rules<'a> {
    pub widths: Widths,
    pub steps: StepRules<'a>,
    pub promises: Section<'a>,
    pub goals: Section<'a>,
    pub starts: Starts<'a>,
}

impl<'a> Rules<'a> {
    // The rules that fill the file, or the first fault in the order of its bytes.
    pub fn read(file: &'a [u8]) -> Result<Rules<'a>, Refusal>
        ensures outcome { Reads file.now result }
        ensures valid { IfOk result (λ rules. Valid (content rules)) }
        ensures again { IfOk result (λ rules. file_of (content rules) ≡ file.now) }
        ensures reads_written { (c : Content) → Valid c → file_of c ≡ file.now → MatchResult result (λ rules. content rules ≡ c) (λ _. ⊥) }
    {
        let mut reader = Reader {
            rest: file,
            whole: file.len(),
        };
        let widths = reader.widths()?;
        let steps = reader.steps(widths)?;
        let promises = reader.group(0, PROMISES, widths.state_scope())?;
        let goals = reader.group(1, GOALS, widths.state_scope())?;
        let starts = reader.group(1, STARTS, widths.states())?;
        reader.end()?;
        Ok(Rules {
            widths,
            steps,
            promises,
            goals,
            starts,
        })
    }
}
