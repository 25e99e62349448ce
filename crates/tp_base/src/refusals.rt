//! Errors that say nothing but what they are: a full place, and a time that is too late.

/// The stated number is there already, so there is no place for one more.
#[derive(Clone, Copy, PartialEq, Eq, Debug)]
pub struct Full;

/// With the change no times would be left that keep all lower bounds, upper bounds and edges.
#[derive(Clone, Copy, PartialEq, Eq, Debug)]
pub struct Late;
