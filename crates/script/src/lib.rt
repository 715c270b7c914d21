// The text scripts that the work on a slab can be written in, line by line.
#![tactic(auto)]

pub mod command;
mod keywords;
pub mod laws;
pub mod lines;
mod numbers;
mod reading;
mod runs;
pub mod unreadable;
mod words;
