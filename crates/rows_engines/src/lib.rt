//! Rows worked by hand, for the networks, the timelines and the rooms.
#![tactic(auto)]

#[cfg(test)]
mod board_rows;
#[cfg(test)]
mod board_times_rows;
#[cfg(test)]
mod both_networks_rows;
#[cfg(test)]
mod by_hand;
#[cfg(test)]
mod duo_rows;
#[cfg(test)]
mod engine_rows;
#[cfg(test)]
mod flying_rows;
#[cfg(test)]
mod in_flight;
#[cfg(test)]
mod laid_ways;
#[cfg(test)]
mod long_chain_rows;
#[cfg(test)]
mod named_reasons;
#[cfg(test)]
mod network_probes;
#[cfg(test)]
mod network_rows;
#[cfg(test)]
mod outage_rows;
#[cfg(test)]
mod planned_rows;
#[cfg(test)]
mod pool_rows;
#[cfg(test)]
mod reason_rows;
#[cfg(test)]
mod rooms_rows;
#[cfg(test)]
mod search_rows;
#[cfg(test)]
mod timelines_rows;
#[cfg(test)]
mod trail_rows;
#[cfg(test)]
mod tree_rows;
