// The name that an item is looked up by: namespace and key, and of a chunk its chunk index too.
ghost use Rattle.std.specs.Prelude.{◌≡◌, ◌<◌, eqb};
ghost use Rattle.found.specs.Places.{item_at, Placed};
ghost use Rattle.found.specs.Ranks.{rank_number};
ghost use Rattle.slots.specs.Names.{judged, front_of, name_of, chunk_name, slot_of};

use super::SLOTS;
use found::Rank;
use layout::ENTRY_BYTES;

// Whether one of the stages judges the item.
pub fn is_judged(image: &[u8], place: usize) -> bool
    requires { Placed image.now place }
    ensures { result ≡ judged (item_at image.now place).raw }
{
    1 <= found::namespace_at(image, place) || found::is_part(image, place)
}

// What stands in front of the key: of a chunk more than of any other item.
#[tactic(auto, unfolding(crate::specs::Names::front_of), using(found::proofs::Reading::byte_at))]
fn front_at(image: &[u8], place: usize) -> u32
    requires { Placed image.now place }
    ensures { result ≡ front_of (item_at image.now place).raw }
{
    let space = u32::from(found::namespace_at(image, place));
    if found::is_chunk(image, place) {
        256 + space * 256 + u32::from(image[place * ENTRY_BYTES + 3])
    } else {
        space
    }
}

#[tactic(auto, unfolding(crate::specs::Names::name_of), using(found::proofs::Reading::key_here))]
pub fn name_at(image: &[u8], place: usize) -> Rank
    requires { Placed image.now place }
    ensures { rank_number result ≡ name_of (item_at image.now place).raw }
{
    Rank {
        high: front_at(image, place),
        key: entry::key_at(image, place * ENTRY_BYTES),
    }
}

pub fn has_name(image: &[u8], place: usize, name: Rank) -> bool
    requires { Placed image.now place }
    ensures { result ≡ eqb (name_of (item_at image.now place).raw) (rank_number name) }
{
    found::rank_same(name_at(image, place), name)
}

// The name of the chunk number `n` of version `v`.
pub fn chunk_name(v: Rank, n: u32) -> Rank
    requires { (v.high < 65536) × (n < 256) }
    ensures { rank_number result ≡ chunk_name (rank_number v) n }
{
    Rank {
        high: 256 + n + v.high,
        ..v
    }
}

// The slot at which the search for a name begins: products of 32 bits each, so that none wraps.
#[tactic(auto, unfolding(crate::specs::Names::slot_of, crate::specs::Names::slot_in), using(found::proofs::Ranking::key_below))]
pub fn slot_of(name: Rank) -> usize
    ensures { (result ≡ slot_of (rank_number name)) × (result < 4096) }
{
    let front = u64::from(name.high);
    let both = name.key.high ^ name.key.low / 8;
    let high = both / 0x1_0000_0000 * 0x9E37_79B1;
    let low = both % 0x1_0000_0000 * 0x85EB_CA77;
    let mixed = (high ^ low) ^ front * 0x1656_67B1;
    ((mixed ^ mixed / 0x1_0000_0000) / 0x10_0000 % SLOTS as u64) as usize
}
