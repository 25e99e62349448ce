//! A farm: machines side by side, each with its own teller. A job goes to the one that would end its first sheet earliest.
#![tactic(auto)]

mod address;
mod dispatch;
mod farm;
mod farm_lines;
mod laws;
mod machine_choice;
mod machine_list;
mod scripted_farm;
mod whom;

pub use farm::Farm;
pub use laws::farms_part;
pub use machine_list::{ListFault, read_list};
pub use scripted_farm::answer_farm;
pub use whom::Whom;
