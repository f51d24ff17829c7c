// What stands at a place.
ghost use Rattle.std.specs.Prelude.{◌≡◌, ◌||◌, ◌+◌, ◌%◌, ◌≤◌, ◌<◌, length};
ghost use Rattle.entry.specs.Fields.{chunk_number, namespace_of, span_of};
ghost use Rattle.found.specs.Found.{newer, is_chunk, is_index, is_part, start_in, version_of, group_of};
ghost use Rattle.found.specs.Places.{item_at, Placed};
ghost use Rattle.found.specs.Ranks.{rank_number};

use super::ranks::Rank;
use layout::{ENTRY_BYTES, SECTOR_BYTES, SECTOR_PLACES, VERSION_CHUNKS};

// By the type byte alone, as each item is asked for it more than once. Two tests of a line each, since their contracts name the kinds and not a number.
pub fn is_chunk(image: &[u8], place: usize) -> bool
    requires { Placed image.now place }
    ensures { result ≡ is_chunk (item_at image.now place).raw }
{
    image[place * ENTRY_BYTES + 1] == 0x42
}

pub fn is_index(image: &[u8], place: usize) -> bool
    requires { Placed image.now place }
    ensures { result ≡ is_index (item_at image.now place).raw }
{
    image[place * ENTRY_BYTES + 1] == 0x48
}

// A chunk or a blob index.
pub fn is_part(image: &[u8], place: usize) -> bool
    requires { Placed image.now place }
    ensures { result ≡ is_part (item_at image.now place).raw }
{
    is_chunk(image, place) || is_index(image, place)
}

pub fn namespace_at(image: &[u8], place: usize) -> u8
    requires { Placed image.now place }
    ensures { result ≡ namespace_of (item_at image.now place).raw }
{
    image[place * ENTRY_BYTES]
}

pub fn span_at(image: &[u8], place: usize) -> usize
    requires { Placed image.now place }
    ensures { (result ≡ span_of (item_at image.now place).raw) × (1 ≤ result) × (place % 128 + result ≤ 128) }
{
    usize::from(image[place * ENTRY_BYTES + 2])
}

pub fn start_at(image: &[u8], place: usize) -> u8
    requires { Placed image.now place }
    ensures { result ≡ start_in (item_at image.now place).raw }
{
    let at = if is_chunk(image, place) { 3 } else { 29 };
    entry::start(image[place * ENTRY_BYTES + at])
}

// A chunk's number, counted from its version's start.
pub fn number_at(image: &[u8], place: usize) -> usize
    requires { Placed image.now place }
    ensures { result ≡ chunk_number (item_at image.now place).raw }
{
    usize::from(image[place * ENTRY_BYTES + 3]) % VERSION_CHUNKS
}

// The version that a chunk or a blob index is of.
pub fn version_at(image: &[u8], place: usize) -> Rank
    requires { Placed image.now place }
    ensures { (rank_number result ≡ version_of (item_at image.now place).raw) × (result.high < 65536) }
{
    Rank {
        high: u32::from(namespace_at(image, place)) * 256 + u32::from(start_at(image, place)),
        key: entry::key_at(image, place * ENTRY_BYTES),
    }
}

pub fn group_at(image: &[u8], place: usize) -> Rank
    requires { Placed image.now place }
    ensures { (rank_number result ≡ group_of (item_at image.now place).raw) × (result.high < 256) }
{
    Rank {
        high: u32::from(namespace_at(image, place)),
        key: entry::key_at(image, place * ENTRY_BYTES),
    }
}

fn sequence_at(image: &[u8], place: usize) -> u32
    requires { Placed image.now place }
    ensures { result ≡ (item_at image.now place).sequence }
{
    word::le32(image, place / SECTOR_PLACES * SECTOR_BYTES + 4)
}

// Whether the item at `later`, which stands later in the list, is newer than the one at `place`.
pub fn is_newer(image: &[u8], later: usize, place: usize) -> bool
    requires { Placed image.now later × Placed image.now place }
    ensures { result ≡ newer (item_at image.now later) (item_at image.now place) }
{
    let before = (sequence_at(image, place), place % SECTOR_PLACES);
    let after = (sequence_at(image, later), later % SECTOR_PLACES);
    before <= after
}
