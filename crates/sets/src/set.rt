// Sets of states in lent memory: one cell a state, read and written by these functions only.
ghost use Rattle.std.specs.Prelude.{◌≡◌, ◌<◌};
ghost use Rattle.sets.specs.Member.{member, room, Put, Filled};

// Whether the state `s` is in the set.
#[tactic(auto, unfolding(crate::specs::Member::member))]
pub fn has(cells: &[u8], s: usize) -> bool
    requires { s < room cells.now }
    ensures { result ≡ member cells.now s }
{
    cells[s] == 1
}

// Puts the state `s` into the set, or takes it out.
pub fn put(cells: &mut [u8], s: usize, inside: bool)
    requires { s < room cells.old }
    ensures { Put cells.old s inside cells.new }
{
    cells[s] = inside as u8;
}

// Puts every state into the set, or takes every state out.
#[tactic(auto, using(crate::proofs::Members::member_filled))]
pub fn fill(cells: &mut [u8], inside: bool)
    ensures { Filled cells.old inside cells.new }
{
    cells.fill(inside as u8);
}
