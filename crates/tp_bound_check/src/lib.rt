//! The check of a bound tree. It uses no network and no search.
#![tactic(auto)]

mod act_length;
mod begin_order;
mod branch;
mod branch_span;
mod choices;
mod dues;
mod found;
mod frame_pass;
mod hop_chains;
mod hops;
mod index;
mod kept;
mod kept_ranks;
mod links;
mod node_close;
mod node_split;
mod node_stand;
mod nodes;
mod orders;
mod own_gaps;
mod own_rank;
mod points;
mod rows;
mod sheets;
mod stance;
mod states;
mod table;
mod tree_check;
mod tree_names;

pub use tp_bound_laws::{Claim, TreeFlaw};
pub use tree_check::check_bound;
