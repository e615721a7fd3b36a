//! What no clause says of the crates on operations, sequences and desks, as tables of cases.
#![tactic(auto)]

#[cfg(test)]
mod bg_types_tests;
#[cfg(test)]
mod codec_fault_tests;
#[cfg(test)]
mod desk_replica_tests;
#[cfg(test)]
mod every_sequence;
#[cfg(test)]
mod feed_tests;
#[cfg(test)]
mod in_order_tests;
#[cfg(test)]
mod key_tests;
#[cfg(test)]
mod op_codec_tests;
#[cfg(test)]
mod op_listing_tests;
#[cfg(test)]
mod ops;
#[cfg(test)]
mod pending_ops_tests;
#[cfg(test)]
mod reading_tests;
#[cfg(test)]
mod rga_sequence_tests;
#[cfg(test)]
mod rows;
#[cfg(test)]
mod stretch_tests;
#[cfg(test)]
mod telling_tests;
#[cfg(test)]
mod world_tests;
