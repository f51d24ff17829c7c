// What is tested of each part of a blob, by what the table leads to.
#![tactic(auto)]

ghost use Rattle.std.specs.Prelude.{◌≡◌, ◌<◌, IfSome};
ghost use Rattle.std.specs.Bool.{then_some};
ghost use Rattle.found.specs.Places.{item_at, Placed};
ghost use Rattle.found.specs.Ranks.{rank_number};
ghost use Rattle.slots.specs.Names.{chunk_name};
ghost use Rattle.slots.specs.Slots.{told, Leads};
ghost use Rattle.fits.specs.Fits.{chunk_fits, has_chunk, index_fits, part_fits, all_fit};

use found::Rank;
use layout::ENTRY_BYTES;
use slots::{chunk_name, find};

// A chunk's namespace and key lead to an index of its version, which counts it.
#[tactic(auto, unfolding(crate::specs::Fits::chunk_fits))]
fn chunk_fits(image: &[u8], slots: &[u16], place: usize) -> bool
    requires { Leads slots.now image.now × Placed image.now place }
    ensures { result ≡ chunk_fits slots.now image.now (item_at image.now place).raw }
{
    let Some(index) = find(image, slots, found::group_at(image, place)) else {
        return false;
    };
    found::is_index(image, index)
        && found::rank_same(
            found::version_at(image, index),
            found::version_at(image, place),
        )
        && found::number_at(image, place)
            < usize::from(entry::index_count(image, index * ENTRY_BYTES))
}

// The place of the chunk number `n` of version `v`.
#[tactic(auto, unfolding(crate::specs::Fits::has_chunk))]
fn chunk_at(image: &[u8], slots: &[u16], v: Rank, n: u32) -> Option<usize>
    requires { Leads slots.now image.now × (v.high < 65536) × (n < 256) }
    ensures { (result ≡ then_some (has_chunk slots.now image.now (rank_number v) n) (told slots.now image.now (chunk_name (rank_number v) n))) × IfSome result (Placed image.now) }
{
    let place = find(image, slots, chunk_name(v, n))?;
    found::is_chunk_of(image, place, v).then_some(place)
}

// An index has each chunk that it counts, and their sizes sum up to its own.
fn index_fits(image: &[u8], slots: &[u16], index: usize) -> bool
    requires { Leads slots.now image.now × Placed image.now index }
    ensures { result ≡ index_fits slots.now image.now (item_at image.now index).raw }
{
    let v = found::version_at(image, index);
    let count = u32::from(entry::index_count(image, index * ENTRY_BYTES));
    let mut size: u32 = 0;
    for n in 0..count {
        let Some(place) = chunk_at(image, slots, v, n) else {
            return false;
        };
        size += entry::chunk_size(image, place * ENTRY_BYTES);
    }
    size == entry::index_size(image, index * ENTRY_BYTES)
}

// A part of a blob fits with the others.
#[tactic(auto, unfolding(crate::specs::Fits::part_fits))]
fn part_fits(image: &[u8], slots: &[u16], place: usize) -> bool
    requires { Leads slots.now image.now × Placed image.now place }
    ensures { result ≡ part_fits slots.now image.now (item_at image.now place).raw }
{
    if found::is_chunk(image, place) {
        chunk_fits(image, slots, place)
    } else {
        !found::is_index(image, place) || index_fits(image, slots, place)
    }
}

// Each item in the table fits: every part of a blob is judged, so it is there.
#[tactic(auto, unfolding(crate::specs::Fits::all_fit, lists::specs::Lists::all_to))]
pub fn all_fit(image: &[u8], slots: &[u16]) -> bool
    requires { Leads slots.now image.now }
    ensures { result ≡ all_fit slots.now image.now }
{
    for &slot in slots {
        let place = usize::from(slot);
        if place != 0 && !part_fits(image, slots, place) {
            return false;
        }
    }
    true
}
