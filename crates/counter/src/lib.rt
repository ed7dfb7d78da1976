// Counterstrategies: for each state, whether it is known, a layer, the goal kept away from, and for each promise gone for a move and a rank.
#![tactic(auto)]

ghost use Rattle.std.specs.Prelude.{◌≡◌, true, is_ok, Decides};
ghost use Rattle.game.specs.Content.{content};
ghost use Rattle.game.specs.Counterstrategy.{turns};
ghost use Rattle.counter.specs.Ways.{grid_for, way_of, Reads};
ghost use Rattle.counter.specs.Sound.{way_verdict, Accepts, Beats};

mod check;
pub mod laws;

use check::Check;
use game::refusal::Refusal;
use game::rules::Rules;
use rows::judge;
use rows::judge::Accepted;
use rows::row::{Grid, Rows};

// The bytes of a counterstrategy, row by row.
#[derive(Clone, Copy)]
pub struct Way<'a> {
    pub rows: Rows<'a>,
}

// How many promises are gone for in turn: one, which holds nowhere, where there are none.
pub(crate) fn turn_count(rules: &Rules) -> u8
    ensures { result ≡ turns rules.now.promises.count }
{
    rules.promises.count.max(1)
}

// The grid of the rows of a counterstrategy for the rules.
#[tactic(auto, using(game::proofs::Appending::formulas_count))]
fn grid(rules: &Rules) -> Grid
    ensures { result ≡ grid_for (content rules.now) }
{
    Grid {
        groups: 1,
        each: rules.widths.states(),
        size: 4 + 3 * turn_count(rules) as u16,
    }
}

// One function for each field of a row: which bytes, the format says.
impl<'a> Way<'a> {
    // The counterstrategy for the rules that fills the bytes; or the bytes end too early, or go on.
    pub fn read(rules: &Rules, bytes: &'a [u8]) -> Result<Way<'a>, Refusal>
        ensures { Reads (content rules.now) bytes.now result }
    {
        let rows = Rows::read(bytes, grid(rules))?;
        Ok(Way { rows })
    }

    // Whether the counterstrategy knows what to do in the state.
    pub fn known(self, state: u16) -> bool
        ensures { result ≡ (way_of self.entry).known state }
    {
        self.rows.row(0, state as u32).known()
    }

    // Its layer.
    pub fn layer(self, state: u16) -> u16
        ensures { result ≡ (way_of self.entry).layer state }
    {
        self.rows.row(0, state as u32).pair(1)
    }

    // The goal that is kept away from.
    pub fn avoid(self, state: u16) -> u8
        ensures { result ≡ (way_of self.entry).avoid state }
    {
        self.rows.row(0, state as u32).byte(3)
    }

    // The environment's move, going for a promise.
    pub fn moved(self, promise: u8, state: u16) -> u8
        ensures { result ≡ (way_of self.entry).move promise state }
    {
        self.rows
            .row(0, state as u32)
            .byte(4 + 3 * promise as usize)
    }

    // How far that promise is.
    pub fn rank(self, promise: u8, state: u16) -> u16
        ensures { result ≡ (way_of self.entry).rank promise state }
    {
        self.rows.row(0, state as u32).pair(5 + 3 * promise as u16)
    }
}

// Accepts the bytes as a counterstrategy that wins the game of the rules for the environment from every start, or names
// their first fault. It is judged as a table is; what acceptance promises is its own.
pub fn accept<'a>(rules: &Rules<'a>, bytes: &'a [u8]) -> Result<Accepted, Refusal>
    ensures verdict { result ≡ way_verdict (content rules.now) bytes.now }
    ensures exactly { Decides (is_ok result) (Accepts (content rules.now) bytes.now) }
    ensures beats { is_ok result ≡ true → Beats (content rules.now) }
{
    let way = Way::read(rules, bytes)?;
    judge::verdict(rules, &Check { rules: *rules, way })
}
