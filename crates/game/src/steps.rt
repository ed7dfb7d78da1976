// The game of the rules, question by question: what may happen in a step, what follows, and what holds in a state.
ghost use Rattle.std.specs.Prelude.{◌≡◌, ◌+◌, ◌<◌, nat_lt, if◌then◌else◌};
ghost use Rattle.game.specs.Game.{goal_after, next_around};
ghost use Rattle.game.specs.Content.{content};
ghost use Rattle.game.specs.Meaning.{game_of};

use crate::rules::Rules;
use crate::section::spelt;
use crate::widths::STATE_BITS;

impl Rules<'_> {
    // Whether the environment may make the move in the state.
    pub fn may_move(&self, state: u16, moved: u8) -> bool
        ensures { result ≡ (game_of (content self.now)).moves state moved }
    {
        (state as u32) < self.widths.states()
            && (moved as u32) < self.widths.moves()
            && self.steps.moves.value(state, moved, 0)
    }

    // Whether the answer is allowed to the move in the state.
    pub fn allows(&self, state: u16, moved: u8, answer: u8) -> bool
        ensures { result ≡ (game_of (content self.now)).allowed state moved answer }
    {
        (state as u32) < self.widths.states()
            && (moved as u32) < self.widths.moves()
            && (answer as u32) < self.widths.answers()
            && self.steps.answers.value(state, moved, answer)
    }

    // The state after the step.
    pub fn after(&self, state: u16, moved: u8, answer: u8) -> u16
        ensures { result ≡ (game_of (content self.now)).after state moved answer }
    {
        spelt(
            self.steps.next.bytes,
            self.steps.next.count.min(STATE_BITS),
            state,
            moved,
            answer,
        )
    }

    // The next two have names of their own, since the definitions have both; what they share is `Section::holds`.

    // Whether promise i holds in the state; one that there is not holds nowhere.
    pub fn promise_holds(&self, i: u8, state: u16) -> bool
        ensures { result ≡ (game_of (content self.now)).promise i state }
    {
        self.promises.holds(i, state)
    }

    // Whether goal j holds in the state; one that there is not holds nowhere.
    pub fn goal_holds(&self, j: u8, state: u16) -> bool
        ensures { result ≡ (game_of (content self.now)).goal j state }
    {
        self.goals.holds(j, state)
    }

    // The number after a goal's, and 0 after the last one and where there is no such goal.
    #[tactic(auto, using(crate::proofs::Appending::formulas_count, std::proofs::lemmas::Bool::Decides::nat_tests))]
    pub fn next_goal(&self, goal: u8) -> u8
        ensures next { let goals = (game_of (content self.now)).goals in result ≡ (if nat_lt (goal + 1) goals then goal + 1 else 0) }
        ensures around { goal < (game_of (content self.now)).goals → result ≡ next_around (game_of (content self.now)).goals goal }
    {
        if goal < self.goals.count.saturating_sub(1) {
            goal + 1
        } else {
            0
        }
    }

    // The goal gone for after the state, where `goal` was gone for in it.
    pub fn goal_after(&self, goal: u8, state: u16) -> u8
        ensures { result ≡ goal_after (game_of (content self.now)) goal state }
    {
        if self.goal_holds(goal, state) {
            self.next_goal(goal)
        } else {
            goal
        }
    }
}
