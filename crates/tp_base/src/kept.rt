//! What a network knows of an edge that is asked for.
use crate::edges::PointId;

/// What is kept of a refusal, beside its edges.
#[derive(Clone, Copy, Debug)]
pub enum Kept {
    /// Nothing was refused yet.
    Nothing,
    /// The edges are a chain from this point.
    Chain(PointId),
    /// The edges are a closed walk.
    Circle,
}
