// Tables with reasons: for each goal gone for and each state, whether it is known, the answers, a rank, and the promise waited for.
#![tactic(auto)]

ghost use Rattle.std.specs.Prelude.{◌≡◌, true, is_ok, Decides};
ghost use Rattle.game.specs.Content.{content};
ghost use Rattle.table.specs.Plans.{Reads, sheet_of, plan_of, grid_for};
ghost use Rattle.table.specs.Sound.{table_verdict, Accepts, Wins};

mod check;
pub mod laws;

use check::Check;
use game::refusal::Refusal;
pub use game::rules::NO_PROMISE;
use game::rules::Rules;
use rows::judge;
use rows::judge::Accepted;
use rows::row::{Grid, Rows};

// The bytes of a table, row by row, and how many moves a row answers.
#[derive(Clone, Copy)]
pub struct Table<'a> {
    pub rows: Rows<'a>,
    pub moves: u8,
}

// The grid of the rows of a table for the rules.
#[tactic(auto, using(game::proofs::Appending::formulas_count))]
fn grid(rules: &Rules) -> Grid
    ensures { result ≡ grid_for (content rules.now) }
{
    Grid {
        groups: rules.goals.count,
        each: rules.widths.states(),
        size: 4 + rules.widths.moves() as u16,
    }
}

// One function for each field of a row: which bytes, the format says.
impl<'a> Table<'a> {
    // The table for the rules that fills the bytes; or the bytes end too early, or go on.
    pub fn read(rules: &Rules, bytes: &'a [u8]) -> Result<Table<'a>, Refusal>
        ensures { Reads (content rules.now) bytes.now result }
    {
        let rows = Rows::read(bytes, grid(rules))?;
        Ok(Table {
            rows,
            moves: rules.widths.moves() as u8,
        })
    }

    // Whether the table knows what to do in the state, going for the goal.
    pub fn known(self, goal: u8, state: u16) -> bool
        ensures { result ≡ (plan_of (sheet_of self.entry)).known goal state }
    {
        self.rows.row(goal, state as u32).known()
    }

    // Its answer to a move.
    pub fn answer(self, goal: u8, state: u16, moved: u8) -> u8
        ensures { result ≡ (plan_of (sheet_of self.entry)).answer goal state moved }
    {
        self.rows.row(goal, state as u32).byte(1 + moved as usize)
    }

    // How far the goal is.
    pub fn rank(self, goal: u8, state: u16) -> u16
        ensures { result ≡ (plan_of (sheet_of self.entry)).rank goal state }
    {
        self.rows
            .row(goal, state as u32)
            .pair(1 + self.moves as u16)
    }

    // The promise waited for.
    pub fn waits(self, goal: u8, state: u16) -> u8
        ensures { result ≡ (plan_of (sheet_of self.entry)).waits goal state }
    {
        self.rows
            .row(goal, state as u32)
            .byte(3 + self.moves as usize)
    }
}

// Accepts the bytes as a table that wins the game of the rules from every start, or names their first fault.
pub fn accept<'a>(rules: &Rules<'a>, bytes: &'a [u8]) -> Result<Accepted, Refusal>
    ensures verdict { result ≡ table_verdict (content rules.now) bytes.now }
    ensures exactly { Decides (is_ok result) (Accepts (content rules.now) bytes.now) }
    ensures wins { is_ok result ≡ true → Wins (content rules.now) bytes.now }
{
    let table = Table::read(rules, bytes)?;
    judge::verdict(
        rules,
        &Check {
            rules: *rules,
            table,
        },
    )
}
