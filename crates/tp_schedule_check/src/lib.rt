//! Whether a schedule is legal, within its bounds and least, and whether it answers an ask, each decided exactly.
#![tactic(auto)]

mod asked;
mod bounds;
mod clash;
mod early;
mod fault;
mod held;
mod line_ends;
mod marks;
mod misfit;
mod parting;
mod plans;
mod timed;
mod times;
mod unlike;

pub use asked::answers_ask;
pub use bounds::{PlanPoint, find_below_floor, find_past_horizon};
pub use clash::{Clash, find_clash};
pub use early::{Early, find_early, is_exempt};
pub use fault::{Fault, find_fault, find_unsettled};
pub use misfit::{Misfit, find_misfit};
pub use parting::{Parting, find_parting};
pub use plans::plan_of;
pub use timed::is_timed_plan;
pub use unlike::{Unlike, find_unlike};
