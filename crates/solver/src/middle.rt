// The middle loop: the least set of states from which the controller can reach a goal, in rounds, waiting in each round
// for one promise. Ranks number what each round adds.
ghost use Rattle.std.specs.Prelude.{◌≡◌, ℕ, ◌+◌, ◌*◌, ◌<◌, ◌≤◌, true, length, Decides};
ghost use Rattle.sets.specs.Arena.{arena_game};
ghost use Rattle.sets.specs.Member.{member, room};
ghost use Rattle.solver.specs.Lent.{SameBase, SameHits, SameLent};
ghost use Rattle.solver.specs.Reach.{Hit, Onto, Grounded, IsBase, Ranked, Rounded, Attained};
ghost use Rattle.solver.specs.Reasons.{cell};
ghost use Rattle.solver.specs.Sweep.{Decided, Written};

use super::numbered::Numbered;
use super::work::Work;
use game::rules::NO_PROMISE;
use sets::arena::Arena;
use sets::set::{has, put};

// Whether goal `j` holds in the state `s` of the zone, and the controller can stay in the zone.
fn is_hit(arena: Arena<'_>, zone: &[u8], j: usize, s: usize) -> bool
    requires state { s < arena.states }
    requires goal { j < arena.goal_count }
    requires zone { room zone.now ≡ arena.states }
    ensures { Decides result (Hit (arena_game arena.entry) (member zone.now) j s) }
{
    has(zone, s) && arena.reaches(j, s) && arena.step_back(zone, s)
}

// Whether the state `s` is a hit, or the controller can make sure, from it, to be in `reach` after the step. The sets come
// one by one: each lies elsewhere, and a struct of them would be made for this one call.
fn is_base(arena: Arena<'_>, zone: &[u8], hits: &[u8], reach: &[u8], s: usize) -> bool
    requires state { s < arena.states }
    requires zone { room zone.now ≡ arena.states }
    requires hits { room hits.now ≡ arena.states }
    requires reach { room reach.now ≡ arena.states }
    requires grounded { member reach.now s ≡ true → Onto (arena_game arena) (member zone.now) (member hits.now) (member reach.now) s }
    ensures { Decides result (Onto (arena_game arena.entry) (member zone.now) (member hits.now) (member reach.now) s) }
{
    has(hits, s) || has(reach, s) || has(zone, s) && arena.step_back(reach, s)
}

// Writes the set of the states that pass the test.
fn write_set<F: Fn(usize) -> bool>(set: &mut [u8], test: F)
    requires { (s : ℕ) → s < room set.old → F.pre test s }
    ensures { Written (F.post test) (room set.old) (member set.new) }
{
    // `put` takes the state's number, so no iterator over the cells
    for s in 0..set.len() {
        put(set, s, test(s));
    }
}

impl Work<'_, '_> {
    // Writes the states where goal `j` is reached.
    fn find_hits(&mut self, zone: &[u8], j: usize)
        requires goal { j < self.old.arena.goal_count }
        requires zone { room zone.now ≡ self.old.arena.states }
        ensures same { self.new.arena ≡ self.old.arena }
        ensures hits { Decided (Hit (arena_game self.old.arena) (member zone.now) j) self.old.arena.states (member self.new.hits.now) }
    {
        let arena = self.arena;
        write_set(self.hits, |s| is_hit(arena, zone, j, s));
    }

    // Writes the base: the hits, and the states of the zone that can be forced into `reach`.
    fn find_base(&mut self, zone: &[u8], reach: &[u8])
        requires zone { room zone.now ≡ self.old.arena.states }
        requires reach { room reach.now ≡ self.old.arena.states }
        requires grounded { Grounded (arena_game self.old.arena) (member zone.now) (member self.old.hits.now) (member reach.now) }
        ensures same { SameHits self.old self.new }
        ensures base { Decided (Onto (arena_game self.old.arena) (member zone.now) (member self.old.hits.now) (member reach.now)) self.old.arena.states (member self.new.base.now) }
    {
        let arena = self.arena;
        let hits = &mut *self.hits;
        write_set(self.base, |s| is_base(arena, zone, hits, reach, s));
    }

    // One round: enters the base, and for each promise what can wait for it. Returns the rank to give next.
    fn round(
        &mut self,
        zone: &[u8],
        j: usize,
        reach: &mut Numbered<'_>,
        turns: &mut [u16],
        next: u32,
    ) -> u32
        requires zone { room zone.now ≡ self.old.arena.states }
        requires reach { reach.old.states ≡ self.old.arena.states }
        requires turns { self.old.arena.promise_count * self.old.arena.states ≤ length turns.old }
        requires is_base { IsBase (arena_game self.old.arena) (member zone.now) j (member reach.old.set.now) (member self.old.base.now) }
        requires ranked { Ranked (arena_game self.old.arena) self.old.arena.states (member zone.now) j (member reach.old.set.now) (cell reach.old.numbers.now) (cell reach.old.names.now) next }
        ensures same { SameBase self.old self.new }
        ensures same_reach { SameLent reach.old reach.new }
        ensures rounded { Rounded (arena_game self.old.arena) self.old.arena.states (member zone.now) j reach.old.set.now turns.old next self.old.arena.promise_count reach.new.set.now reach.new.numbers.now reach.new.names.now turns.new result }
    {
        let base = &mut *self.base;
        let mut rank = reach.adopt(base, true, next, NO_PROMISE);
        let states = self.arena.states;
        // by number: of rows that `chunks_mut` lends, the proof would know no entry afterwards
        for i in 0..self.arena.promise_count {
            let first = i * states;
            let end = first + states;
            self.wait_within(zone, i, &mut turns[first..end]);
            rank = reach.adopt(self.stay, true, rank, i as u8);
        }
        rank
    }

    // Leaves in `reach` the least set of states of the zone from which goal `j` can be reached, with their ranks and the
    // promises waited for; and in `turns`, for each promise, when the inner loop took each other state of the zone out.
    fn attain(&mut self, zone: &[u8], j: usize, reach: &mut Numbered<'_>, turns: &mut [u16])
        requires goal { j < self.old.arena.goal_count }
        requires zone { room zone.now ≡ self.old.arena.states }
        requires reach { reach.old.states ≡ self.old.arena.states }
        requires turns { self.old.arena.promise_count * self.old.arena.states ≤ length turns.old }
        ensures same { self.new.arena ≡ self.old.arena }
        ensures same_reach { SameLent reach.old reach.new }
        ensures attained { Attained (arena_game self.old.arena) self.old.arena.states (member zone.now) j (member reach.new.set.now) (cell reach.new.numbers.now) (cell reach.new.names.now) turns.old turns.new }
    {
        self.find_hits(zone, j);
        reach.fill(false);
        let mut next = 0;
        'middle: loop {
            let reached = &mut *reach.set;
            self.find_base(zone, reached);
            let rank = self.round(zone, j, reach, turns, next);
            if rank == next {
                break 'middle;
            }
            next = rank;
        }
    }

    // As `attain`, with a set and a goal's rows of the lent table. A struct can't be made of slices that lie in another
    // one, so these are lent one by one.
    pub fn attain_row(
        &mut self,
        zone: &[u8],
        j: usize,
        reach: &mut [u8],
        ranks: &mut [u16],
        waits: &mut [u8],
        turns: &mut [u16],
    )
        requires goal { j < self.old.arena.goal_count }
        requires zone { room zone.now ≡ self.old.arena.states }
        requires reach { room reach.old ≡ self.old.arena.states }
        requires ranks { length ranks.old ≡ self.old.arena.states }
        requires waits { length waits.old ≡ self.old.arena.states }
        requires turns { self.old.arena.promise_count * self.old.arena.states ≤ length turns.old }
        ensures same { self.new.arena ≡ self.old.arena }
        ensures attained { Attained (arena_game self.old.arena) self.old.arena.states (member zone.now) j (member reach.new) (cell ranks.new) (cell waits.new) turns.old turns.new }
    {
        let mut reach = Numbered {
            states: self.arena.states,
            set: reach,
            numbers: ranks,
            names: waits,
        };
        self.attain(zone, j, &mut reach, turns);
    }
}
