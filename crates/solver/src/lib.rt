// The solver: three nested fixpoints give the winning region of a game, and ranks, turns and layers from which a table
// with reasons for the controller and a counterstrategy for the environment are read off.
#![tactic(auto)]

mod answers;
mod choose;
mod inner;
pub mod memory;
mod middle;
mod moves;
pub mod needs;
mod numbered;
mod outer;
mod reasons;
pub mod rules;
pub mod solve;
mod work;
