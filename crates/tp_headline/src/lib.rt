//! The headline, of every lawful log: no resource is held twice, each tray receives its line in order, and plans, nones and
//! budgets mean what they say. And in which order records stand.
#![tactic(auto)]

mod laws;

pub use laws::{
    Trees, breaks_tell_in_order, clock_tells_in_order, lawful_budgets_are_spent,
    lawful_logs_are_legal, lawful_logs_hold_once, lawful_logs_receive_in_order,
    lawful_nones_are_none, lawful_plans_are_earliest, turns_keep_order,
};
