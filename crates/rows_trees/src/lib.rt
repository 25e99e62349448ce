//! Worked rows of printed bounds: a crate of tests alone.
#![tactic(auto)]

#[cfg(test)]
mod afresh;
#[cfg(test)]
mod changes;
#[cfg(test)]
mod checks;
#[cfg(test)]
mod lines;
#[cfg(test)]
mod made;
#[cfg(test)]
mod taken_scripts;
#[cfg(test)]
mod texts;
