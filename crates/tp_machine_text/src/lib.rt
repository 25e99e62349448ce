//! Machine texts: TOML both ways.
#![tactic(auto)]

mod action_slips;
mod action_values;
mod hold_points;
mod hold_slips;
mod laws;
mod looks;
pub mod lookup;
mod machine;
mod machine_printer;
mod machine_reader;
mod machine_slips;
mod machine_table;
mod phrases;
mod rules;
mod slip;
mod supply_values;
mod table_parts;
mod table_values;
mod wants;

pub use laws::one_machine;
pub use machine_printer::print_machine;
pub use machine_reader::{MachineFault, read_machine, read_table};
pub use machine_slips::first_slip;
pub use rules::first_broken;
pub use slip::{Key, Noun, Part, Slip, Want, Wrong};
pub use table_parts::put;
