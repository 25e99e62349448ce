//! Worked rows of jobs, events, logs, sessions, snapshots and generated cases: a crate of tests alone.
#![tactic(auto)]

#[cfg(test)]
mod clocks;
#[cfg(test)]
mod jobs;
#[cfg(test)]
mod logs;
#[cfg(test)]
mod random_machines;
#[cfg(test)]
mod records;
#[cfg(test)]
mod saved_snapshots;
#[cfg(test)]
mod sessions;
#[cfg(test)]
mod soak_cases;
#[cfg(test)]
mod stocks;
