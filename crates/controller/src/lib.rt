// The running controller: it holds the state and the goal gone for, and gives the table's answer to each move.
#![tactic(auto)]

ghost use Rattle.std.specs.Prelude.{◌≡◌, [], IfOk};
ghost use Rattle.game.specs.Play.{now_after};
ghost use Rattle.controller.specs.Steps.{game_in, plan_in, place_in};
ghost use Rattle.controller.specs.Outcomes.{Same, StepsTo, RunsTo, PlaysTo, SafeTo};

use game::refusal::Refusal;
use game::rules::Rules;
use std::alloc::{AllocError, Global};
use table::Table;

mod accepted;
pub mod theorems;

#[derive(Clone, Copy)]
pub struct Controller<'a> {
    pub rules: Rules<'a>,
    pub table: Table<'a>,
    pub state: u16,
    pub goal: u8,
}

// What came of a row of moves: the answers, and why no more were given.
#[derive(Drop)]
pub struct Ran {
    pub answers: Vec<u8>,
    pub refusal: Option<Refusal>,
}

impl<'a> Controller<'a> {
    // A controller in the state, going for goal 0.
    pub fn new(rules: Rules<'a>, table: Table<'a>, state: u16) -> Controller<'a>
        ensures rules { result.rules ≡ rules.entry }
        ensures table { result.table ≡ table.entry }
        ensures place { place_in result ≡ now_after (game_in result) (plan_in result) state [] }
    {
        Controller {
            rules,
            table,
            state,
            goal: 0,
        }
    }

    // The table's answer to a move; where the move is refused, nothing changes, and the next one may be tried.
    pub fn step(&mut self, moved: u8) -> Result<u8, Refusal>
        ensures same { Same self.old self.new }
        ensures steps { StepsTo self.old moved self.new result }
    {
        if !self.rules.may_move(self.state, moved) {
            return Err(Refusal::ForbiddenMove);
        }
        if !self.table.known(self.goal, self.state) {
            return Err(Refusal::UnknownState);
        }
        let answer = self.table.answer(self.goal, self.state, moved);
        let goal = self.rules.goal_after(self.goal, self.state);
        self.state = self.rules.after(self.state, moved, answer);
        self.goal = goal;
        Ok(answer)
    }

    // The answers to a row of moves, up to the first refusal. Memory for all answers is taken first: where it lacks, nothing
    // changes.
    pub fn run(&mut self, moves: &[u8], heap: Global) -> Result<Ran, AllocError>
        ensures same { Same self.old self.new }
        ensures runs { RunsTo self.old moves.now self.new result }
        ensures plays { IfOk result (PlaysTo self.old moves.now self.new) }
        ensures safe { IfOk result (SafeTo self.old moves.now self.new) }
    {
        let mut answers = Vec::with_capacity(heap, moves.len())?;
        for moved in moves {
            match self.step(*moved) {
                Ok(answer) => answers.push_reserved(answer),
                Err(refusal) => {
                    return Ok(Ran {
                        answers,
                        refusal: Some(refusal),
                    });
                }
            }
        }
        Ok(Ran {
            answers,
            refusal: None,
        })
    }
}
