// The items of the listed pages, each known by its place: the number of its first block of 32 bytes in the image.
#![tactic(auto)]

mod chunks;
mod items;
mod ranks;

pub use chunks::is_chunk_of;
pub use items::{
    group_at, is_chunk, is_index, is_newer, is_part, namespace_at, number_at, span_at, start_at,
    version_at,
};
pub use ranks::{Rank, rank_less, rank_same};
