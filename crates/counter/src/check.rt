// The checker of counterstrategies: it evaluates the rules themselves, answer by answer, and believes nobody.
ghost use Rattle.std.specs.Prelude.{◌≡◌};
ghost use Rattle.game.specs.Content.{content};
ghost use Rattle.game.specs.Meaning.{game_of};
ghost use Rattle.game.specs.declared.refusal.Refusal.TheVariants.{WayFault};
ghost use Rattle.counter.specs.Ways.{way_of};
ghost use Rattle.counter.specs.Sound.{row_sound, rows_sound, state_sound};
ghost use Rattle.counter.specs.Steps.{rank_due, may_be, StandsFor, onward, StepsOf, step_by};

use crate::{Way, turn_count};
use formula::bits::has_bit;
use formula::lanes::{self, Neighbours, Same};
use game::refusal::Refusal;
use game::rules::Rules;
use rows::judge::Reasons;
use rows::lanes::{afters, lane_number};

// A counterstrategy beside the rules that it is for.
#[derive(Clone, Copy)]
pub struct Check<'a> {
    pub(crate) rules: Rules<'a>,
    pub(crate) way: Way<'a>,
}

// What the steps from one row are tested against.
#[derive(Clone, Copy)]
struct Here {
    promise: u8,
    layer: u16,
    // the goal kept away from, where it is one of those that there are and does not hold in the state
    away_from: Option<u8>,
    next_rank: NextRank,
}

// What is asked of the rank after a step.
#[derive(Clone, Copy, PartialEq, Eq, Debug)]
enum NextRank {
    // nothing, as the promise holds
    Any,
    // to be lower
    Below(u16),
    // to stay, as there are no promises
    Same(u16),
}

// The steps from one row, lane a by the answer a: which are allowed, and where they lead, bit by bit.
#[derive(Clone, Copy)]
struct Steps {
    allowed: u64,
    after: [u64; 12],
}

impl NextRank {
    // Whether it may be this one.
    fn allows(self, rank: u16) -> bool
        ensures { result ≡ may_be self rank }
    {
        match self {
            NextRank::Any => true,
            NextRank::Below(before) => rank < before,
            NextRank::Same(before) => rank == before,
        }
    }
}

impl Check<'_> {
    // What the rank has to be after a step from the row of a promise and a state.
    #[tactic(auto, using(game::proofs::Appending::formulas_count))]
    fn next_rank(&self, promise: u8, state: u16) -> NextRank
        ensures { result ≡ rank_due (game_of (content self.now.rules)) (way_of self.now.way) promise state }
    {
        let rank = self.way.rank(promise, state);
        if self.rules.promise_holds(promise, state) {
            NextRank::Any
        } else if self.rules.promises.count > 0 {
            NextRank::Below(rank)
        } else {
            NextRank::Same(rank)
        }
    }

    // The row of a promise and a state.
    fn here(&self, promise: u8, state: u16) -> Here
        ensures { StandsFor (game_of (content self.now.rules)) (way_of self.now.way) promise state result }
    {
        let avoid = self.way.avoid(state);
        Here {
            promise,
            layer: self.way.layer(state),
            away_from: self.rules.goals.lacks(avoid, state).then_some(avoid),
            next_rank: self.next_rank(promise, state),
        }
    }

    // Whether a step from here to the state after leads on: it is known, and its layer is lower; or layer and goal kept
    // away from stay, that goal does not hold here, and the promise holds here or its rank is lower after. Where there
    // are no promises the rank stays.
    fn goes_on(&self, here: Here, after: u16) -> bool
        ensures { result ≡ onward (way_of self.now.way) here after }
    {
        if !self.way.known(after) {
            return false;
        }
        let layer = self.way.layer(after);
        layer < here.layer
            || (layer == here.layer
                && Some(self.way.avoid(after)) == here.away_from
                && here.next_rank.allows(self.way.rank(here.promise, after)))
    }

    // The steps from a state by a move.
    fn steps(&self, state: u16, moved: u8) -> Steps
        ensures { StepsOf (content self.now.rules) state moved result }
    {
        let steps = lanes::Steps {
            states: Same { number: state },
            moves: Same {
                number: moved as u16,
            },
            answers: Neighbours { block: 0 },
        };
        Steps {
            allowed: self.rules.steps.answers.values(&steps),
            after: afters(&self.rules, &steps),
        }
    }

    // Whether an answer, where it is allowed, leads on.
    fn step_holds(&self, here: Here, steps: &Steps, answer: u8) -> bool
        ensures { result ≡ step_by (way_of self.now.way) here steps.now answer }
    {
        if !has_bit(steps.allowed, answer as usize) {
            return true;
        }
        self.goes_on(here, lane_number(&steps.after, answer))
    }

    // Whether the move of the row of a promise and a state is legal, and all its steps hold.
    fn row_holds(&self, promise: u8, state: u16) -> bool
        ensures { result ≡ row_sound (content self.now.rules) (way_of self.now.way) promise state }
    {
        let moved = self.way.moved(promise, state);
        if !self.rules.may_move(state, moved) {
            return false;
        }
        let here = self.here(promise, state);
        let steps = self.steps(state, moved);
        let answers = self.rules.widths.answers() as u8;
        (0..answers).all(|answer| self.step_holds(here, &steps, answer))
    }

    // Whether the rows of all promises gone for hold in the state.
    fn rows_hold(&self, state: u16) -> bool
        ensures { result ≡ rows_sound (content self.now.rules) (way_of self.now.way) state }
    {
        (0..turn_count(&self.rules)).all(|promise| self.row_holds(promise, state))
    }
}

impl Reasons for Check<'_> {
    ghost sound = { λ k s. state_sound (content k.rules) k.way.rows.grid k.way.rows.bytes.now s };

    ghost aware = { λ k s. (way_of k.way).known s };

    ghost blame = { λ _ s. WayFault s };

    #[tactic(auto, using(game::proofs::Appending::formulas_count, std::proofs::lemmas::Bool::Decides::nat_tests))]
    fn holds(&self, state: u16) -> bool {
        let row = self.way.rows.row(0, state as u32);
        if !row.known() {
            return row.byte(0) == 0;
        }
        self.way.avoid(state) < self.rules.goals.count && self.rows_hold(state)
    }

    fn knows(&self, state: u16) -> bool {
        self.way.known(state)
    }

    // the refusal is all that differs from a table's
    fn fault(&self, state: u16) -> Refusal {
        Refusal::WayFault {
            state: state as usize,
        }
    }
}
