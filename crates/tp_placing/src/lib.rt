//! A schedule as a network with timelines, to which the choices for one sheet are added and taken back.
#![tactic(auto)]

mod added_holds;
mod added_plan;
mod asked;
mod board;
mod board_names;
mod board_orders;
mod board_times;
mod candidates;
mod causes;
mod clock_move;
mod commit;
mod crowded_places;
mod edges;
mod kept_chains;
mod kept_edges;
mod kept_holds;
mod kept_plans;
mod kept_points;
mod kept_ticks;
mod laws;
mod least_times;
mod list_steps;
mod live_match;
mod load;
mod neighbours;
mod new_board;
mod parts;
mod place_walk;
mod point_index;
mod reason_names;
mod refusal;
mod renewal;
mod schedule_times;
mod tray_neighbours;
mod undo;

pub use board::Board;
pub use laws::{boards_have_marks, marks_keep_boards, tables_are_numbered};
pub use parts::{Change, Held, MadeFor};
pub use place_walk::Refused;
pub use reason_names::{Grip, Spot, Why};
