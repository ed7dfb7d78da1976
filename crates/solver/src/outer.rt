// The outer loop: the greatest set of states from which every goal can be reached again and again, the winning region.
// Layers number what each goal of each round drops.
ghost use Rattle.std.specs.Prelude.{◌≡◌, ◌+◌, ◌*◌, ◌<◌, ◌≤◌, length};
ghost use Rattle.sets.specs.Arena.{arena_game};
ghost use Rattle.sets.specs.Member.{member, room};
ghost use Rattle.solver.specs.Lent.{SameLent, SameReasons};
ghost use Rattle.solver.specs.Reasons.{cell, row};
ghost use Rattle.solver.specs.Settle.{Lost, Passed, Solved};

use super::numbered::Numbered;
use super::reasons::Reasons;
use super::work::Work;
use sets::arena::Arena;

impl Reasons<'_, '_> {
    // One round: for each goal in turn, drops the states of the zone from which it can't be reached. Returns the layer to
    // give next.
    fn pass(&mut self, work: &mut Work<'_, '_>, zone: &mut Numbered<'_>, layer: u32) -> u32
        requires game { work.old.arena ≡ self.old.arena }
        requires zone { zone.old.states ≡ self.old.arena.states }
        requires lost { Lost (arena_game self.old.arena) self.old.arena.states (member zone.old.set.now) (cell zone.old.numbers.now) (cell zone.old.names.now) (row self.old.turns.now self.old.arena.states) layer }
        ensures same { work.new.arena ≡ work.old.arena }
        ensures same_reasons { SameReasons self.old self.new }
        ensures same_zone { SameLent zone.old zone.new }
        ensures passed { Passed (arena_game self.old.arena) self.old.arena.states zone.old.set.now layer self.old.arena.goal_count zone.new.set.now zone.new.numbers.now zone.new.names.now self.new.ranks.now self.new.waits.now self.new.turns.now result }
    {
        let states = self.arena.states;
        let mut next = layer;
        // by number: of rows that `chunks_mut` lends, the proof would know no entry afterwards
        for j in 0..self.arena.goal_count {
            let first = j * states;
            let end = first + states;
            let in_zone = &mut *zone.set;
            work.attain_row(
                in_zone,
                j,
                self.reach,
                &mut self.ranks[first..end],
                &mut self.waits[first..end],
                self.turns,
            );
            next = zone.adopt(self.reach, false, next, j as u8);
        }
        next
    }

    // Leaves in `zone` the winning region; for each goal the ranks of its states and the promises waited for; for every
    // other state a layer, the goal to be kept away from, and for each promise the turn at which it was taken out. Returns
    // how many rounds it took, the last one, which drops nothing, included.
    fn find_region(&mut self, work: &mut Work<'_, '_>, zone: &mut Numbered<'_>) -> u32
        requires game { work.old.arena ≡ self.old.arena }
        requires zone { zone.old.states ≡ self.old.arena.states }
        ensures same_reasons { SameReasons self.old self.new }
        ensures same_zone { SameLent zone.old zone.new }
        ensures solved { Solved (arena_game self.old.arena) self.old.arena.states zone.new.set.now zone.new.numbers.now zone.new.names.now self.new.ranks.now self.new.waits.now self.new.turns.now }
        ensures rounds { (0 < result) × (result ≤ self.old.arena.states + 1) }
    {
        zone.fill(true);
        self.turns.fill(0);
        let mut next = 0;
        let mut rounds = 0;
        'outer: loop {
            rounds += 1;
            let layer = self.pass(work, zone, next);
            if layer == next {
                break 'outer;
            }
            next = layer;
        }
        rounds
    }
}

// Finds the winning region in lent slices, as `find_region` does; the loops' sets lie one after the other in `sets`. Takes
// slices, since a struct can't be made of slices that other structs lend.
pub fn settle(
    arena: Arena<'_>,
    sets: &mut [u8],
    zone: &mut [u8],
    layers: &mut [u16],
    avoids: &mut [u8],
    ranks: &mut [u16],
    waits: &mut [u8],
    turns: &mut [u16],
) -> u32
    requires sets { 5 * arena.states ≤ length sets.old }
    requires zone { room zone.old ≡ arena.states }
    requires layers { length layers.old ≡ arena.states }
    requires avoids { length avoids.old ≡ arena.states }
    requires ranks { length ranks.old ≡ arena.goal_count * arena.states }
    requires waits { length waits.old ≡ arena.goal_count * arena.states }
    requires turns { arena.promise_count * arena.states ≤ length turns.old }
    ensures solved { Solved (arena_game arena.entry) arena.entry.states zone.new layers.new avoids.new ranks.new waits.new turns.new }
    ensures rounds { (0 < result) × (result ≤ arena.entry.states + 1) }
{
    let states = arena.states;
    let (hits, rest) = sets.split_at_mut(states);
    let (base, rest) = rest.split_at_mut(states);
    let (reach, rest) = rest.split_at_mut(states);
    let (stay, rest) = rest.split_at_mut(states);
    let (before, _) = rest.split_at_mut(states);
    let mut work = Work {
        arena,
        hits,
        base,
        stay,
        before,
    };
    let mut zone = Numbered {
        states,
        set: zone,
        numbers: layers,
        names: avoids,
    };
    let mut reasons = Reasons {
        arena,
        reach,
        ranks,
        waits,
        turns,
    };
    reasons.find_region(&mut work, &mut zone)
}
