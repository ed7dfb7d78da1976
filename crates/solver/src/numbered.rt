// A set of states with a number and a name beside each state: what is reached, with ranks and promises waited for, and
// the zone, with layers and goals to be kept away from.
ghost use Rattle.std.specs.Prelude.{◌≡◌, ℕ, ◌<◌, ◌≤◌, length, MatchBool};
ghost use Rattle.sets.specs.Member.{member, room, Filled};
ghost use Rattle.solver.specs.Reasons.{cell};
ghost use Rattle.solver.specs.Sweep.{Adopted, Moves, Rests, Spare};

use sets::set::{fill, has, put};

// The set, and beside each state the number and the name that it got when it was last moved in or out, or 0.
#[derive(Drop)]
pub struct Numbered<'a> {
    pub states: usize,
    pub set: &'a mut [u8],
    pub numbers: &'a mut [u16],
    pub names: &'a mut [u8],
    ghost most_states: { states ≤ 65536 },
    ghost set_room: { room set.now ≡ states },
    ghost numbers_length: { length numbers.now ≡ states },
    ghost names_length: { length names.now ≡ states },
}

impl Numbered<'_> {
    ghost use Rattle.solver.specs.Lent.{SameLent};

    // Puts every state into the set, or takes every state out; each number and each name is then 0.
    pub fn fill(&mut self, inside: bool)
        ensures same { SameLent self.old self.new }
        ensures set { Filled self.old.set.now inside self.new.set.now }
        ensures numbers { (s : ℕ) → cell self.new.numbers.now s ≡ 0 }
        ensures names { (s : ℕ) → cell self.new.names.now s ≡ 0 }
    {
        fill(self.set, inside);
        self.numbers.fill(0);
        self.names.fill(0);
    }

    // Whether the state `s` is in `other` and not in the set, or the other way round.
    fn moves(&self, other: &[u8], inside: bool, s: usize) -> bool
        requires state { s < self.now.states }
        requires other { room other.now ≡ self.now.states }
        ensures { MatchBool result (Moves inside (member other.now) (member self.now.set.now) s) (Rests inside (member other.now) (member self.now.set.now) s) }
    {
        has(other, s) == inside && has(self.set, s) != inside
    }

    // Moves each state in that is in `other` and not in the set, or each state out where it is the other way round, with
    // this number and this name; returns the number to give next, which is one more where a state was moved.
    pub fn adopt(&mut self, other: &[u8], inside: bool, number: u32, name: u8) -> u32
        requires other { room other.now ≡ self.old.states }
        requires spare { Spare inside self.old.states (member self.old.set.now) number }
        ensures same { SameLent self.old self.new }
        ensures adopted { Adopted inside self.old.states other.now self.old.set.now self.old.numbers.now self.old.names.now number name self.old.states self.new.set.now self.new.numbers.now self.new.names.now result }
    {
        let mut next = number;
        // by number: both sets and both slices are read or written at it
        for s in 0..self.states {
            if self.moves(other, inside, s) {
                put(self.set, s, inside);
                self.numbers[s] = number as u16;
                self.names[s] = name;
                next = number + 1;
            }
        }
        next
    }
}
