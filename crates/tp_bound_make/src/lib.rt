//! A bound tree as a board makes it: the room rows of an ask, and the nodes of its branches, each
//! closed by what the network refused it for, or split.
#![tactic(auto)]

mod branch_steps;
mod branch_walk;
mod branch_ways;
mod closed_places;
mod goal_steps;
mod hops;
mod limit_tree;
mod refused_close;
mod rows;
mod scene;
mod side;
mod tree_nodes;
mod widest_places;

pub use limit_tree::show_limit;
pub use scene::NotShown;
