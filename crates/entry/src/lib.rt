// The entries of a page: their states and totals, and what an entry's bytes say.
#![tactic(auto)]

mod fields;
mod kinds;
mod states;

pub use fields::{
    Key, chunk_size, entry_crc, index_count, index_size, index_start, key_at, key_less, key_same,
    start,
};
pub use kinds::{Kind, is_known, kind_of};
pub use states::{EntryState, Totals, entry_state, totals_of};
