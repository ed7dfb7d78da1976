// Games, plays and winning: what the rules of a game mean, and the theorems that everything above rests on.
#![tactic(auto)]

pub mod agree;
mod part;
mod reader;
pub mod refusal;
pub mod rules;
pub mod section;
mod steps;
pub mod theorems;
pub mod widths;
mod writer;
