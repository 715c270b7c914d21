// Trial pairs against load cases: what the `account` program decides.
#![tactic(auto)]

mod cases;
pub mod reply;
pub mod session;
pub mod tried;
pub mod trouble;
