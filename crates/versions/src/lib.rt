// A blob's versions: which index counts, and whether the chunks are as it says.
#![tactic(auto)]

mod sound;

pub use sound::{is_sound, newest_of};
