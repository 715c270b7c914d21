// Figures worked by hand, run as tests. They have a crate of their own, since a crate with tests is proved twice.
#![tactic(auto)]

#[cfg(test)]
mod best;
#[cfg(test)]
mod lines;
#[cfg(test)]
mod passing;
#[cfg(test)]
mod standing;
