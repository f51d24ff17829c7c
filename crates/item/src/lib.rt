// What is done to a page, each operation as the list of steps that document 01 gives for it.
#![tactic(auto)]

mod copy;
mod erase;
mod initial;
mod marks;

pub use copy::copy_item;
pub use erase::erase_item;
pub use initial::{clear_sector, header_of, initialise};
pub use marks::{mark_freeing, mark_full};
