//! Plans of copies, schedules of plans, and the meaning of answers to asks.
#![tactic(auto)]

mod copies;
mod empties;
mod goals;
mod hold_order;
mod holders;
mod laws;
mod origin;
mod outage_spread;
mod parts;
mod planner;
mod records;
mod schedule;
mod series;
mod start_states;

pub use copies::{copy_place, is_earlier};
pub use goals::{finished, is_goal};
pub use holders::is_plan_live;
pub use laws::{action_law, holders_law, legal_law, order_law, room_law, unique_law};
pub use parts::{Ask, Empties, Goal, Halt, Hold, Kind, Origin, Plan, Reply, SheetId};
pub use planner::Planner;
pub use records::{Cause, Record, SheetName};
pub use schedule::Schedule;
pub use series::{Acts, Points};
pub use start_states::{is_start, new_sheet};
pub use tp_machine;
