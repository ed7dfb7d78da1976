// The answers of the table, chosen after the loops: for each goal, state and legal move the first allowed answer that
// leads to a state to which the table may go.
ghost use Rattle.std.specs.Prelude.{◌≡◌, ℕ, ◌+◌, ◌*◌, ◌<◌, ◌≤◌, length, Decides};
ghost use Rattle.sets.specs.Arena.{arena_game};
ghost use Rattle.sets.specs.Member.{member, room};
ghost use Rattle.solver.specs.Choice.{Answered};
ghost use Rattle.solver.specs.Reasons.{row};

use super::choose::{first_that, write_row};
use sets::arena::Arena;
use sets::set::has;

// What the answers for one goal are chosen by: the zone, and the ranks of its states and the promises waited for.
#[derive(Clone, Copy)]
struct ForGoal<'a> {
    arena: Arena<'a>,
    zone: &'a [u8],
    goal: usize,
    ranks: &'a [u16],
    waits: &'a [u8],
    ghost is_goal: { goal < arena.goal_count },
    ghost zone_room: { room zone.now ≡ arena.states },
    ghost ranks_length: { length ranks.now ≡ arena.states },
    ghost waits_length: { length waits.now ≡ arena.states },
}

// As in the methods of `Arena`, each number is asked to be in range where it is used.
impl ForGoal<'_> {
    ghost use Rattle.solver.specs.Chosen.{AnswerFor, AnswersFor, FallsTo, FineTo, Suits};

    // Whether from `s` to `t` the rank falls, or the same promise is waited for and does not hold in `s`.
    #[tactic(auto, using(sets::proofs::Arenas::promises_is))]
    fn falls(self, s: usize, t: usize) -> bool
        requires from { s < self.arena.states }
        requires to { t < self.arena.states }
        ensures { Decides result (FallsTo self.entry s t) }
    {
        let wait = self.waits[s] as usize;
        self.ranks[t] < self.ranks[s]
            || self.ranks[t] == self.ranks[s]
                && self.waits[t] as usize == wait
                && wait < self.arena.promise_count
                && !self.arena.keeps(wait, s)
    }

    // Whether the table may go from `s` to `t`.
    fn is_fine(self, s: usize, t: usize) -> bool
        requires from { s < self.arena.states }
        requires to { t < self.arena.states }
        ensures { Decides result (FineTo self.entry s t) }
    {
        has(self.zone, t) && (self.arena.reaches(self.goal, s) || self.falls(s, t))
    }

    // Whether the answer `a` to the move `e` in the state `s` is allowed and leads to where the table may go.
    fn suits(self, s: usize, e: usize, a: usize) -> bool
        requires state { s < self.arena.states }
        requires action { e < self.arena.moves }
        requires reply { a < self.arena.answers }
        ensures { Decides result (Suits self.entry s e a) }
    {
        self.arena.is_allowed(s, e, a) && self.is_fine(s, self.arena.after(s, e, a))
    }

    // The answer to the move `e` in the state `s`: the first that suits, or 0 where there is none.
    fn answer(self, s: usize, e: usize) -> u8
        requires state { s < self.arena.states }
        requires action { e < self.arena.moves }
        ensures { AnswerFor self.entry s e result }
    {
        if !has(self.zone, s) || !self.arena.is_legal(s, e) {
            return 0;
        }
        first_that(self.arena.answers, |a| self.suits(s, e, a))
    }

    // Writes the answers to every move in every state.
    fn write(self, answers: &mut [u8])
        requires { length answers.old ≡ self.arena.states * self.arena.moves }
        ensures { AnswersFor self.entry answers.new }
    {
        // by number: of rows that `chunks_exact_mut` lends, a proof knows the length alone
        for s in 0..self.arena.states {
            let first = s * self.arena.moves;
            let row = &mut answers[first..first + self.arena.moves];
            write_row(row, |e| self.answer(s, e));
        }
    }
}

// Writes the answers of the table, goal by goal: a goal's rows are a part of each slice. Parts by their places: of what
// `chunks_exact_mut` lends, a proof knows the length alone.
pub fn answer_all(arena: Arena<'_>, zone: &[u8], ranks: &[u16], waits: &[u8], answers: &mut [u8])
    requires zone { room zone.now ≡ arena.states }
    requires ranks { length ranks.now ≡ arena.goal_count * arena.states }
    requires waits { length waits.now ≡ arena.goal_count * arena.states }
    requires answers { length answers.old ≡ arena.goal_count * (arena.states * arena.moves) }
    ensures { Answered (arena_game arena.entry) arena.entry.states arena.entry.moves (member zone.now) (row ranks.now arena.entry.states) (row waits.now arena.entry.states) answers.new arena.entry.goal_count }
{
    let size = arena.states * arena.moves;
    for goal in 0..arena.goal_count {
        let first = goal * arena.states;
        let end = first + arena.states;
        let place = goal * size;
        let rows = ForGoal {
            arena,
            zone,
            goal,
            ranks: &ranks[first..end],
            waits: &waits[first..end],
        };
        rows.write(&mut answers[place..place + size]);
    }
}
