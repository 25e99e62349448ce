//! The earliest plan of a sheet: a best-first search through choice lists on a board.
#![tactic(auto)]

mod ask_answer;
mod best_first;
mod bound_trees;
mod children;
mod dives;
mod engine;
mod goals;
mod held_list;
mod laid_way;
mod laws;
mod next_list;
mod opening;
mod problem;
mod replay;
mod states;
mod store;
mod stored_list;
mod trial;
mod window_search;
mod workspace;

pub use ask_answer::answer;
pub use bound_trees::show_never;
pub use engine::Engine;
pub use laws::ways_have_bounds;
pub use trial::{NoPlan, Trial, plan};
pub use workspace::Workspace;
