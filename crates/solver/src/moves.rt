// The moves of the counterstrategy, chosen after the loops: for each promise gone for and each lost state the first
// legal move after which every allowed answer leads to a lost state and descends.
ghost use Rattle.std.specs.Prelude.{◌≡◌, ℕ, ◌+◌, ◌*◌, ◌<◌, ◌≤◌, length, Decides, MatchBool};
ghost use Rattle.game.specs.Counterstrategy.{kept, turns as turn_rows};
ghost use Rattle.sets.specs.Arena.{arena_game};
ghost use Rattle.sets.specs.Member.{member, room};
ghost use Rattle.solver.specs.Choice.{Cleared, Moved};
ghost use Rattle.solver.specs.Reasons.{cell};

use super::choose::{first_that, write_row};
use sets::arena::Arena;
use sets::set::has;

// What the moves that go for one promise are chosen by: the zone, and the layers of lost states, the goals kept away from
// and the turns. Without promises there is one number gone for, which is no promise's.
#[derive(Clone, Copy)]
struct ForPromise<'a, 't> {
    arena: Arena<'a>,
    zone: &'a [u8],
    layers: &'a [u16],
    avoids: &'a [u8],
    promise: usize,
    turns: &'t [u16],
    ghost zone_room: { room zone.now ≡ arena.states },
    ghost layers_length: { length layers.now ≡ arena.states },
    ghost avoids_length: { length avoids.now ≡ arena.states },
    ghost turns_length: { length turns.now ≡ arena.states },
}

// As in the methods of `Arena`, each number is asked to be in range where it is used.
impl ForPromise<'_, '_> {
    ghost use Rattle.solver.specs.Chosen.{ChosenFor, LeadsOff, LeadsOn, MoveFor, MovesFor, OpenTo, RisingTo, Unchosen};

    // Whether the promise holds in `s`; a number that is no promise's holds nowhere.
    #[tactic(auto, using(sets::proofs::Arenas::promises_is))]
    fn is_kept(self, s: usize) -> bool
        requires { s < self.arena.states }
        ensures { result ≡ kept (arena_game self.entry.arena) self.entry.promise s }
    {
        self.promise < self.arena.promise_count && self.arena.keeps(self.promise, s)
    }

    // Whether the step from `s` to `t` goes onward: `s` keeps the promise, or its rank falls, or there are no promises and
    // the rank stays.
    #[tactic(auto, using(sets::proofs::Arenas::promises_is))]
    fn goes_onward(self, s: usize, t: usize) -> bool
        requires from { s < self.arena.states }
        requires to { t < self.arena.states }
        ensures { Decides result (RisingTo self.entry s t) }
    {
        let (here, there) = (self.turns[s], self.turns[t]);
        self.is_kept(s)
            || if self.arena.promise_count > 0 {
                there < here
            } else {
                there == here
            }
    }

    // Whether the counterstrategy knows `t` and descends to it from `s`.
    #[tactic(auto, using(sets::proofs::Arenas::goals_is))]
    fn is_free(self, s: usize, t: usize) -> bool
        requires from { s < self.arena.states }
        requires to { t < self.arena.states }
        ensures { Decides result (OpenTo self.entry s t) }
    {
        let avoid = self.avoids[s] as usize;
        !has(self.zone, t)
            && (self.layers[t] < self.layers[s]
                || self.layers[t] == self.layers[s]
                    && self.avoids[t] as usize == avoid
                    && avoid < self.arena.goal_count
                    && !self.arena.reaches(avoid, s)
                    && self.goes_onward(s, t))
    }

    // Whether the answer `a` to the move `e` in `s`, if it is allowed, leads to where the counterstrategy goes on.
    fn leads_on(self, s: usize, e: usize, a: usize) -> bool
        requires state { s < self.arena.states }
        requires action { e < self.arena.moves }
        requires reply { a < self.arena.answers }
        ensures { MatchBool result (LeadsOn self.entry s e a) (LeadsOff self.entry s e a) }
    {
        !self.arena.is_allowed(s, e, a) || self.is_free(s, self.arena.after(s, e, a))
    }

    // Whether every answer to the move `e` in `s` leads on, if it is allowed.
    fn all_lead_on(self, s: usize, e: usize) -> bool
        requires state { s < self.arena.states }
        requires action { e < self.arena.moves }
        ensures { MatchBool result ((a : ℕ) → a < self.entry.arena.answers → LeadsOn self.entry s e a) ((a : ℕ) × (a < self.entry.arena.answers) × LeadsOff self.entry s e a) }
    {
        (0..self.arena.answers).all(|a| self.leads_on(s, e, a))
    }

    // Whether the move `e` is legal in `s`, and every allowed answer to it leads on.
    #[tactic(auto, using(sets::proofs::Arenas::answer_below))]
    fn suits(self, s: usize, e: usize) -> bool
        requires state { s < self.arena.states }
        requires action { e < self.arena.moves }
        ensures { MatchBool result (ChosenFor self.entry s e) (Unchosen self.entry s e) }
    {
        self.arena.is_legal(s, e) && self.all_lead_on(s, e)
    }

    // The move in `s`: the first that suits, or 0 where there is none.
    fn choose(self, s: usize) -> u8
        requires { s < self.arena.states }
        ensures { MoveFor self.entry s result }
    {
        if has(self.zone, s) {
            return 0;
        }
        first_that(self.arena.moves, |e| self.suits(s, e))
    }

    // Writes the moves of every state.
    fn write(self, moves: &mut [u8])
        requires { length moves.old ≡ self.arena.states }
        ensures { MovesFor self.entry moves.new }
    {
        write_row(moves, |s| self.choose(s));
    }
}

// Clears the turns of the states of the zone, which no counterstrategy uses.
fn clear_row(zone: &[u8], turns: &mut [u16])
    requires { length turns.old ≡ room zone.now }
    ensures { Cleared (member zone.now) (cell turns.old) (cell turns.new) (room zone.now) }
{
    for (s, turn) in turns.iter_mut().enumerate() {
        if has(zone, s) {
            *turn = 0;
        }
    }
}

// Writes the moves of the counterstrategy, promise by promise, and leaves only the turns of lost states, its ranks.
pub fn move_all(
    arena: Arena<'_>,
    zone: &[u8],
    layers: &[u16],
    avoids: &[u8],
    turns: &mut [u16],
    moves: &mut [u8],
)
    requires zone { room zone.now ≡ arena.states }
    requires layers { length layers.now ≡ arena.states }
    requires avoids { length avoids.now ≡ arena.states }
    requires turns { length turns.old ≡ turn_rows arena.promise_count * arena.states }
    requires moves { length moves.old ≡ turn_rows arena.promise_count * arena.states }
    ensures { Moved (arena_game arena.entry) arena.entry.states (member zone.now) (cell layers.now) (cell avoids.now) turns.old (turn_rows arena.entry.promise_count) turns.new moves.new }
{
    // by number: of rows that `chunks_exact_mut` lends, a proof knows the length alone
    for promise in 0..arena.promise_count.max(1) {
        let first = promise * arena.states;
        let end = first + arena.states;
        let turns = &mut turns[first..end];
        clear_row(zone, turns);
        let row = ForPromise {
            arena,
            zone,
            layers,
            avoids,
            promise,
            turns,
        };
        row.write(&mut moves[first..end]);
    }
}
