//! The program over its outside, a file for each mode, and the law that a farm writes a lawful log of each machine.
#![tactic(auto)]

mod check_mode;
mod compose_mode;
mod farm_fault;
mod farm_laws;
mod farm_mode;
mod joined_logs;
mod machine;
mod machines;
mod order;
mod printer;
mod resume_mode;
mod run_mode;
mod save_mode;
mod session;
mod soak_mode;
mod status;
mod text;

pub use farm_fault::FarmFault;
pub use farm_laws::farms_are_lawful;
pub use joined_logs::resumed_logs_join;
pub use order::{
    checks_in_order_are_answered, farms_in_order_are_answered, lawful_logs_are_accepted,
    racks_in_order_are_composed, resumes_in_order_are_answered, runs_are_accepted,
    runs_in_order_are_answered,
};
pub use printer::printer_main;
pub use status::{Long, Status};
