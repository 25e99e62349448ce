//! What is kept of a session, as plain values.

use crate::parts::{Job, WaitingCopy};
use tp_base::{Items, Tick};
use tp_machine::Outs;
use tp_schedule::Plan;

/// A job that was accepted: its name, its tray, and whether it is broken. Its number is its place in the list.
pub type JobRow = Job;

/// A copy that waits, and the sheet that is wanted of it.
pub type WaitRow = WaitingCopy;

/// For each feeder, in the machine's order, how many sheets are free: none where the stock is endless.
pub type StockRows = Items<Option<u32>>;

/// Jobs in the order of arrival.
pub type JobRows = Items<JobRow>;

/// Waiting copies in the order of copies.
pub type WaitRows = Items<WaitRow>;

/// Plans in the order of copies.
pub type PlanRows = Items<Plan>;

/// Where a session stands between two events: its moment, the modules that are out, what is free at each feeder, all jobs, the
/// copies that wait, and the plans that are live. A desk that is given it goes on as the one that told it would have.
#[derive(Drop)]
pub struct Standing {
    pub now: Tick,
    pub outs: Outs,
    pub stock: StockRows,
    pub jobs: JobRows,
    pub waiting: WaitRows,
    pub plans: PlanRows,
}
