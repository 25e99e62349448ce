//! Worked rows of machines and schedules: a crate of tests, with the machine texts of all rows.
#![tactic(auto)]

#[cfg(test)]
mod checked_schedules;
pub mod machines;
#[cfg(test)]
mod prints;
#[cfg(test)]
mod schedules;
