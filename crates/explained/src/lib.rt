// The delivered rules with both sides of their inequalities, and a rule chosen by name.
#![tactic(auto)]

pub mod box_sides;
pub mod chosen;
mod margins;
pub mod sides;
pub mod yield_sides;
