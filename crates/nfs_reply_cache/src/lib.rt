//! The replies that are kept for retransmissions.
#![tactic(auto)]

mod buckets;
mod cached_reply;
pub mod reply_cache;
