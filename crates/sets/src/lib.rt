// Sets of states in lent memory, the tabulated game (the arena), and one step back in it.
#![tactic(auto)]

pub mod arena;
mod lanes;
mod packed;
pub mod set;
pub mod step;
pub mod tabulate;
