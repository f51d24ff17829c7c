// Recovery's third stage: blobs that are not whole, and the older of two.
#![tactic(auto)]

mod front;
mod stage;

pub use stage::{any_part, make_blobs};
