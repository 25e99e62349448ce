//! Lists of choices that share their tails, and a queue by bound.
#![tactic(auto)]

mod buckets;
mod choice;
mod pool;

pub use buckets::Buckets;
pub use choice::Choice;
pub use pool::Pool;
