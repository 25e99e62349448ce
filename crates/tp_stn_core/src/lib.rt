//! The plain network: it works out the least solution from scratch at each change.
#![tactic(auto)]

mod marks;
mod network;
mod plain_net;
mod rounds;
mod saved_low;
mod solver;
mod undo;

pub use plain_net::PlainNet;
