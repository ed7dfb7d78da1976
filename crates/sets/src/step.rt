// What the arena says of a state, a move and an answer, and one step back (the controllable predecessor).
#![tactic(auto, unfolding(crate::specs::Arena::arena_game))]

ghost use Rattle.std.specs.Prelude.{◌≡◌, ◌<◌, Decides};
ghost use Rattle.formula.specs.Bits.{bit};
ghost use Rattle.sets.specs.Arena.{arena_game};
ghost use Rattle.sets.specs.Member.{member, room, In};
ghost use Rattle.sets.specs.Step.{Cpre, Forced};

use super::arena::Arena;
use super::set::has;

// Bit i of a table's entry. The crate formula's `has_bit` also takes places past the word, and that test makes a step
// back take a third longer.
fn bit_of(entry: u64, i: usize) -> bool
    requires { i < 64 }
    ensures { result ≡ bit entry i }
{
    (entry >> i) % 2 == 1
}

// Each method asks for numbers in range. A type of a state in range would say that once, but each use would have to make
// one first, `arena.at(s).is_legal(e)`, and to prove there what it proves now.
impl Arena<'_> {
    // Whether the environment may make the move `e` in the state `s`.
    pub fn is_legal(self, s: usize, e: usize) -> bool
        requires state { s < self.states }
        requires action { e < self.moves }
        ensures { result ≡ (arena_game self.entry).moves s e }
    {
        bit_of(self.legal[s], e)
    }

    // Whether the answer `a` to the move `e` is allowed in the state `s`.
    pub fn is_allowed(self, s: usize, e: usize, a: usize) -> bool
        requires state { s < self.states }
        requires action { e < self.moves }
        requires reply { a < self.answers }
        ensures { result ≡ (arena_game self.entry).allowed s e a }
    {
        bit_of(self.allowed[s * self.moves + e], a)
    }

    // The state after the move `e` and the answer `a` in the state `s`.
    pub fn after(self, s: usize, e: usize, a: usize) -> usize
        requires state { s < self.states }
        requires action { e < self.moves }
        requires reply { a < self.answers }
        ensures is { result ≡ (arena_game self.entry).after s e a }
        ensures below { result < self.entry.states }
    {
        self.next[(s * self.moves + e) * self.answers + a] as usize
    }

    // The next two have names of their own, since the definitions have both; what they share is `bit_of`.

    // Whether promise `i` holds in the state `s`.
    pub fn keeps(self, i: usize, s: usize) -> bool
        requires state { s < self.states }
        requires promise { i < self.promise_count }
        ensures { result ≡ (arena_game self.entry).promise i s }
    {
        bit_of(self.promises[s] as u64, i)
    }

    // Whether goal `j` holds in the state `s`.
    pub fn reaches(self, j: usize, s: usize) -> bool
        requires state { s < self.states }
        requires goal { j < self.goal_count }
        ensures { result ≡ (arena_game self.entry).goal j s }
    {
        bit_of(self.goals[s] as u64, j)
    }

    // Whether some allowed answer to the move `e` leads into the set.
    pub fn forces(self, cells: &[u8], s: usize, e: usize) -> bool
        requires state { s < self.states }
        requires action { e < self.moves }
        requires cells { room cells.now ≡ self.states }
        ensures { Decides result (Forced (arena_game self.entry) (In (member cells.now)) s e) }
    {
        (0..self.answers).any(|a| self.is_allowed(s, e, a) && has(cells, self.after(s, e, a)))
    }

    // One step back: whether the controller can make sure, from the state `s`, to be in the set after the step.
    pub fn step_back(self, cells: &[u8], s: usize) -> bool
        requires state { s < self.states }
        requires cells { room cells.now ≡ self.states }
        ensures { Decides result (Cpre (arena_game self.entry) (In (member cells.now)) s) }
    {
        (0..self.moves).all(|e| !self.is_legal(s, e) || self.forces(cells, s, e))
    }
}
