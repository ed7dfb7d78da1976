// The checker of tables: it evaluates the rules themselves, move by move, and believes nobody.
ghost use Rattle.std.specs.Prelude.{◌≡◌, true};
ghost use Rattle.game.specs.Content.{content};
ghost use Rattle.game.specs.Meaning.{game_of};
ghost use Rattle.game.specs.declared.refusal.Refusal.TheVariants.{TableFault};
ghost use Rattle.rows.specs.Rows.{row_at};
ghost use Rattle.table.specs.Plans.{sheet_of, plan_of};
ghost use Rattle.table.specs.Sound.{waits_fits, answers_fit, steps_sound, row_sound, state_sound};
ghost use Rattle.table.specs.Steps.{StandsFor, onward, LegalIn, StepsOf, step_by};

use crate::Table;
use formula::bits::has_bit;
use formula::lanes::{self, Neighbours, Same};
use game::refusal::Refusal;
use game::rules::{NO_PROMISE, Rules};
use rows::judge::Reasons;
use rows::lanes::{Column, afters, lane_number};
use rows::row::Row;

// A table beside the rules that it is for. Counterstrategies have a type of their own for this, since a crate gives methods
// to its own types alone.
#[derive(Clone, Copy)]
pub struct Check<'a> {
    pub(crate) rules: Rules<'a>,
    pub(crate) table: Table<'a>,
}

// What the steps from one row are tested against.
#[derive(Clone, Copy)]
struct Here {
    goal: u8,
    // whether the goal holds in the state, and the goal gone for after it
    reached: bool,
    then: u8,
    rank: u16,
    // the promise waited for, where it is one of those that there are and does not hold in the state
    waiting_for: Option<u8>,
}

// The steps from one row, lane e by the move e: which are legal and allowed, and where they lead, bit by bit.
#[derive(Clone, Copy)]
struct Steps {
    legal: u64,
    allowed: u64,
    after: [u64; 12],
}

impl Check<'_> {
    // Whether no answer of a row has a bit too many.
    fn answers_fit(&self, row: Row) -> bool
        ensures { result ≡ answers_fit (content self.now.rules) row.entry.bytes.now }
    {
        let answers = self.rules.widths.answers();
        (0..self.rules.widths.moves()).all(|moved| (row.byte(1 + moved as usize) as u32) < answers)
    }

    // Whether what is waited for is a promise or none.
    #[tactic(auto, using(game::proofs::Appending::formulas_count, std::proofs::lemmas::Bool::Decides::nat_tests))]
    fn waits_fit(&self, waits: u8) -> bool
        ensures { result ≡ waits_fits (content self.now.rules) waits }
    {
        waits < self.rules.promises.count || waits == NO_PROMISE
    }

    // The row of a goal and a state.
    fn here(&self, goal: u8, state: u16) -> Here
        ensures { StandsFor (game_of (content self.now.rules)) (plan_of (sheet_of self.now.table)) goal state result }
    {
        let reached = self.rules.goal_holds(goal, state);
        // not by `goal_after`, which would evaluate the goal once more
        let then = if reached {
            self.rules.next_goal(goal)
        } else {
            goal
        };
        let rank = self.table.rank(goal, state);
        let waits = self.table.waits(goal, state);
        Here {
            goal,
            reached,
            then,
            rank,
            waiting_for: self.rules.promises.lacks(waits, state).then_some(waits),
        }
    }

    // Whether a step from here to the state after leads on: it is known for the goal gone for then, and the goal holds
    // here, or the rank falls, or rank and promise waited for stay while that promise does not hold.
    fn goes_on(&self, here: Here, after: u16) -> bool
        ensures { result ≡ onward (plan_of (sheet_of self.now.table)) here after }
    {
        if !self.table.known(here.then, after) {
            return false;
        }
        let rank = self.table.rank(here.goal, after);
        here.reached
            || rank < here.rank
            || (rank == here.rank && Some(self.table.waits(here.goal, after)) == here.waiting_for)
    }

    // Lane e says whether the environment may make the move e in the state.
    fn legal(&self, state: u16) -> u64
        ensures { LegalIn (content self.now.rules) state result }
    {
        if state as u32 >= self.rules.widths.states() {
            return 0;
        }
        self.rules.steps.moves.values(&lanes::Steps {
            states: Same { number: state },
            moves: Neighbours { block: 0 },
            answers: Same { number: 0 },
        })
    }

    // The steps from the row of a goal and a state.
    fn steps(&self, goal: u8, state: u16) -> Steps
        requires { answers_fit (content self.now.rules) (row_at self.now.table.rows.grid self.now.table.rows.bytes.now goal state) ≡ true }
        ensures { StepsOf (content self.now.rules) (plan_of (sheet_of self.now.table)) goal state result }
    {
        let steps = lanes::Steps {
            states: Same { number: state },
            moves: Neighbours { block: 0 },
            answers: Column {
                row: self.table.rows.row(goal, state as u32),
                from: 1,
            },
        };
        Steps {
            legal: self.legal(state),
            allowed: self.rules.steps.answers.values(&steps),
            after: afters(&self.rules, &steps),
        }
    }

    // Whether a move, where the environment may make it, has an answer that is allowed and leads on.
    fn step_holds(&self, here: Here, steps: &Steps, moved: u8) -> bool
        ensures { result ≡ step_by (plan_of (sheet_of self.now.table)) here steps.now moved }
    {
        if !has_bit(steps.legal, moved as usize) {
            return true;
        }
        has_bit(steps.allowed, moved as usize)
            && self.goes_on(here, lane_number(&steps.after, moved))
    }

    // Whether all steps from the row of a goal and a state hold.
    fn steps_hold(&self, goal: u8, state: u16) -> bool
        requires { answers_fit (content self.now.rules) (row_at self.now.table.rows.grid self.now.table.rows.bytes.now goal state) ≡ true }
        ensures { result ≡ steps_sound (content self.now.rules) (plan_of (sheet_of self.now.table)) goal state }
    {
        let here = self.here(goal, state);
        let steps = self.steps(goal, state);
        let moves = self.rules.widths.moves() as u8;
        (0..moves).all(|moved| self.step_holds(here, &steps, moved))
    }

    // Whether the row of a goal and a state is in range and, where it is known, holds together.
    fn row_holds(&self, goal: u8, state: u16) -> bool
        ensures { result ≡ row_sound (content self.now.rules) (sheet_of self.now.table) goal state }
    {
        let row = self.table.rows.row(goal, state as u32);
        if !row.known() {
            return row.byte(0) == 0;
        }
        self.waits_fit(self.table.waits(goal, state))
            && self.answers_fit(row)
            && self.steps_hold(goal, state)
    }
}

impl Reasons for Check<'_> {
    ghost sound = { λ k s. state_sound (content k.rules) (sheet_of k.table) s };

    ghost aware = { λ k s. (plan_of (sheet_of k.table)).known 0 s };

    ghost blame = { λ _ s. TableFault s };

    fn holds(&self, state: u16) -> bool {
        (0..self.rules.goals.count).all(|goal| self.row_holds(goal, state))
    }

    fn knows(&self, state: u16) -> bool {
        self.table.known(0, state)
    }

    // the refusal is all that differs from a counterstrategy's
    fn fault(&self, state: u16) -> Refusal {
        Refusal::TableFault {
            state: state as usize,
        }
    }
}
