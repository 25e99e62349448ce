//! The live network: it keeps its least solution by a worklist, with a cause for each point.
#![tactic(auto)]

mod cause_trace;
mod changes;
mod link;
mod link_lists;
mod live_net;
mod lower_bound;
mod marks;
mod network;
mod new_edges;
mod point_queue;
mod point_state;
mod propagation;
mod saved_changes;
mod undo;
mod waiting;
mod working;

pub use live_net::LiveNet;
