// How much memory the solver asks for.
ghost use Rattle.std.specs.Prelude.{◌≡◌, ◌*◌, ◌≤◌, length, Decides, MatchResult};

use super::memory::{Short, Table, Way};
use super::solve::SETS;
use game::rules::Rules;
use sets::arena::Arena;

// How much memory the rules of a game ask for: how many states, moves, answers and goals they have, and how many promises
// are gone for in turn. There is one entry for each state in `legal`, `promises` and `goals` of the tabulated game, in
// `known` of the table, and in `layers` and `avoids` of the counterstrategy; the methods say how many the others have.
#[derive(Clone, Copy)]
pub struct Needs {
    pub states: usize,
    pub moves: usize,
    pub answers: usize,
    pub goals: usize,
    pub turns: usize,
    ghost most_states: { states ≤ 65536 },
    ghost most_moves: { moves ≤ 64 },
    ghost most_answers: { answers ≤ 64 },
    ghost most_goals: { goals ≤ 255 },
    ghost most_turns: { turns ≤ 255 },
}

impl From<&Rules<'_>> for Needs {
    ghost use Rattle.game.specs.Content.{content};
    ghost use Rattle.solver.specs.Asked.{asked};
    ghost use Rattle.solver.specs.Sizes.{sizes_of};

    ghost from_gives = { λ rules needs. asked needs ≡ sizes_of (content rules.now) };

    fn from(rules: &Rules<'_>) -> Needs {
        Needs {
            states: rules.widths.states() as usize,
            moves: rules.widths.moves() as usize,
            answers: rules.widths.answers() as usize,
            goals: rules.goals.count as usize,
            turns: rules.promises.count.max(1) as usize,
        }
    }
}

impl From<Arena<'_>> for Needs {
    ghost use Rattle.solver.specs.Asked.{asked};
    ghost use Rattle.solver.specs.Call.{sizes_for};

    ghost from_gives = { λ arena needs. asked needs ≡ sizes_for arena };

    fn from(arena: Arena<'_>) -> Needs {
        Needs {
            states: arena.states,
            moves: arena.moves,
            answers: arena.answers,
            goals: arena.goal_count,
            turns: arena.promise_count.max(1),
        }
    }
}

impl Needs {
    ghost use Rattle.solver.specs.Asked.{asked};
    ghost use Rattle.solver.specs.Call.{AllFit, Misfit, held};
    ghost use Rattle.solver.specs.Sizes.{GameFits, TableFits, WayFits, entry_count, reply_count, row_count};

    // Entries of `allowed`: one for each state and move.
    pub fn steps(self) -> usize
        ensures { result ≡ self.states * self.moves }
    {
        self.states * self.moves
    }

    // Entries of `next`: one for each state, move and answer.
    pub fn nexts(self) -> usize
        ensures { result ≡ self.states * self.moves * self.answers }
    {
        self.states * self.moves * self.answers
    }

    // Entries of `sets`.
    pub fn sets(self) -> usize
        ensures { result ≡ 5 * self.states }
    {
        SETS * self.states
    }

    // Entries of the table's `answers`: one for each goal, state and move.
    pub fn replies(self) -> usize
        ensures { result ≡ reply_count (asked self) }
    {
        self.goals * (self.states * self.moves)
    }

    // Entries of the table's `ranks` and `waits`: one for each goal and state.
    pub fn entries(self) -> usize
        ensures { result ≡ entry_count (asked self) }
    {
        self.goals * self.states
    }

    // Entries of the counterstrategy's `moves` and `ranks`: one for each promise gone for and state.
    pub fn rows(self) -> usize
        ensures { result ≡ row_count (asked self) }
    {
        self.turns * self.states
    }

    // Whether slices of these lengths have room for the tabulated game and the sets.
    pub fn game_fits(
        self,
        legal: usize,
        allowed: usize,
        next: usize,
        promises: usize,
        goals: usize,
        sets: usize,
    ) -> bool
        ensures { Decides result (GameFits (asked self) legal allowed next promises goals sets) }
    {
        self.states <= legal
            && self.steps() <= allowed
            && self.nexts() <= next
            && self.states <= promises
            && self.states <= goals
            && self.sets() <= sets
    }

    // Whether they have room for the table.
    pub fn table_fits(self, known: usize, answers: usize, ranks: usize, waits: usize) -> bool
        ensures { Decides result (TableFits (asked self) known answers ranks waits) }
    {
        self.states <= known
            && self.replies() <= answers
            && self.entries() <= ranks
            && self.entries() <= waits
    }

    // Whether they have room for the counterstrategy.
    pub fn way_fits(self, layers: usize, avoids: usize, moves: usize, turns: usize) -> bool
        ensures { Decides result (WayFits (asked self) layers avoids moves turns) }
    {
        self.states <= layers
            && self.states <= avoids
            && self.rows() <= moves
            && self.rows() <= turns
    }

    // Refuses the first kind of slices that is too short: the sets, then the table's, then the counterstrategy's.
    pub fn check(self, sets: &[u8], table: &Table<'_>, way: &Way<'_>) -> Result<(), Short>
        ensures { MatchResult result (λ _. AllFit (asked self) sets.now (held table.now way.now)) (λ short. Misfit (asked self) sets.now (held table.now way.now) short) }
    {
        if sets.len() < self.sets() {
            return Err(Short::Sets);
        }
        if !self.table_fits(
            table.known.len(),
            table.answers.len(),
            table.ranks.len(),
            table.waits.len(),
        ) {
            return Err(Short::Tables);
        }
        if !self.way_fits(
            way.layers.len(),
            way.avoids.len(),
            way.moves.len(),
            way.ranks.len(),
        ) {
            return Err(Short::Way);
        }
        Ok(())
    }
}
