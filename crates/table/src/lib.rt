// The load cases that stand at a point, in an order of their own.
#![tactic(auto)]

pub mod line;
pub mod lines;
pub mod table;
