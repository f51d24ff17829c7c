// The places of items sorted, by a merge sort in which equals stay in order.
#![tactic(auto)]

mod choice;
mod ends;
mod merging;

pub use choice::Order;
pub use ends::{end_of, run_end};
pub use merging::sort;
