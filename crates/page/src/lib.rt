// A page read from the bytes of its sector: its state, what the scan sees of it, its items, its record.
#![tactic(auto)]

mod record;
mod seen;
mod state;
mod walk;

pub use record::{PageRecord, with_unread};
pub use seen::{Seen, free_seen, see};
pub use state::{PageState, all_ones, is_free, page_state};
pub use walk::{ItemHeader, is_item, one_written, read_entry, unread_of};
