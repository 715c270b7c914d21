// The delivered yield rules.
#![tactic(auto)]

pub mod box_rule;
pub mod direction;
pub mod readings;
pub mod yield_rule;
