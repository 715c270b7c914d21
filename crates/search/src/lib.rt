// The best pair of a face under many load cases, and what stops each of its moments.
#![tactic(auto)]

pub mod best;
pub mod laws;
mod least;
mod question;
pub mod ranking;
mod seed;
pub mod stop;
pub mod stops;
mod walk;
