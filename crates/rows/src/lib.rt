// Reasons as rows of bytes, judged state by state: what the checkers of tables and of counterstrategies share.
#![tactic(auto)]

pub mod judge;
pub mod lanes;
pub mod laws;
pub mod row;
