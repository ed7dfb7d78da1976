// The inner loop: the greatest set of states from which the controller comes into the base, or waits for a promise
// within the set.
ghost use Rattle.std.specs.Prelude.{◌≡◌, ◌+◌, ◌<◌, ◌≤◌, length, Decides, MatchBool};
ghost use Rattle.sets.specs.Arena.{arena_game};
ghost use Rattle.sets.specs.Count.{count};
ghost use Rattle.sets.specs.Member.{In, member, room};
ghost use Rattle.solver.specs.Lent.{SameBase};
ghost use Rattle.solver.specs.Reasons.{cell};
ghost use Rattle.solver.specs.Region.{Waiting};
ghost use Rattle.solver.specs.Stay.{Leaves, Remains, Shrunk, Stayed};

use super::work::Work;
use sets::set::{has, put};

impl Work<'_, '_> {
    // Whether the state `s` waits for promise `i` within what was there before the turn.
    #[tactic(auto, using(sets::proofs::Arenas::promises_is))]
    fn waits(&self, i: usize, s: usize) -> bool
        requires state { s < self.now.arena.states }
        requires promise { i < self.now.arena.promise_count }
        ensures { Decides result (Waiting (arena_game self.now.arena) i (In (member self.now.before.now)) s) }
    {
        !self.arena.keeps(i, s) && self.arena.step_back(self.before, s)
    }

    // Whether the state `s` leaves what was there before the turn: it is not in the base, and does not wait.
    fn leaves(&self, i: usize, s: usize) -> bool
        requires state { s < self.now.arena.states }
        requires promise { i < self.now.arena.promise_count }
        ensures { MatchBool result (Leaves (arena_game self.now.arena) (member self.now.base.now) i (member self.now.before.now) s) (Remains (arena_game self.now.arena) (member self.now.base.now) i (member self.now.before.now) s) }
    {
        has(self.before, s) && !has(self.base, s) && !self.waits(i, s)
    }

    // One turn: takes out, all at once, the states that are not in the base and do not wait for promise `i` within the set
    // as it was; writes the turn beside each, and returns how many they are.
    fn shrink(&mut self, i: usize, turns: &mut [u16], turn: u32) -> usize
        requires promise { i < self.old.arena.promise_count }
        requires turns { length turns.old ≡ self.old.arena.states }
        requires turn { turn + count self.old.arena.states (member self.old.stay.now) ≤ self.old.arena.states }
        ensures same { SameBase self.old self.new }
        ensures shrunk { Shrunk (arena_game self.old.arena) (member self.old.base.now) i self.old.arena.states self.old.stay.now turns.old turn self.old.arena.states self.new.stay.now turns.new result }
    {
        // by a variable: of a field that is lent on as it stands, the proof would not know what it holds afterwards
        let stay = &mut *self.stay;
        self.before.copy_from_slice(stay);
        let mut removed = 0;
        // by number: a state's number is what the test, the set and the turns take
        for s in 0..self.arena.states {
            if self.leaves(i, s) {
                put(self.stay, s, false);
                turns[s] = turn as u16;
                removed += 1;
            }
        }
        removed
    }

    // Leaves in `stay` the greatest set of states of `zone` that are in the base or wait for promise `i` within it, and in
    // `turns`, for each other state of `zone`, the turn at which it left.
    pub fn wait_within(&mut self, zone: &[u8], i: usize, turns: &mut [u16])
        requires promise { i < self.old.arena.promise_count }
        requires zone { room zone.now ≡ self.old.arena.states }
        requires turns { length turns.old ≡ self.old.arena.states }
        ensures same { SameBase self.old self.new }
        ensures stayed { Stayed (arena_game self.old.arena) (member zone.now) (member self.old.base.now) i (member self.new.stay.now) (cell turns.old) (cell turns.new) }
    {
        self.stay.copy_from_slice(zone);
        let mut turn = 0;
        'inner: loop {
            let removed = self.shrink(i, turns, turn);
            if removed == 0 {
                break 'inner;
            }
            turn += 1;
        }
    }
}
