//! Worked rows of racks: a crate of tests alone.
#![tactic(auto)]

#[cfg(test)]
mod drawn_racks;
#[cfg(test)]
mod random_walks;
