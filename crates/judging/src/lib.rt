// A version judged, and of two sound ones the older.
#![tactic(auto)]

mod chunks;

ghost use Rattle.std.specs.Prelude.{◌≡◌, ◌<◌, [], MatchOption};
ghost use Rattle.flash.specs.Did.{Did};
ghost use Rattle.found.specs.Places.{item_at, items_at, Placed, Alike};
ghost use Rattle.found.specs.Ranks.{rank_number};
ghost use Rattle.versions.specs.Versions.{version_in, judge, older, drop_version};
ghost use Rattle.versions.specs.Search.{Gathered};

use chunks::drop_version;
use flash::Ran;
use found::Rank;
use versions::{is_sound, newest_of};

// A version that has no index, or not the chunks that its index tells, goes.
pub fn judge_version(image: &mut [u8], places: &[u16], v: Rank, allowed: u64) -> Ran
    requires { Gathered image.old places.now }
    ensures { Did (judge (items_at image.old places.now) (rank_number v)) allowed image.old image.new result × Alike image.old image.new }
{
    let Some(index) = newest_of(image, places, v, v) else {
        return erasing::erase_chunks(image, places, v, allowed);
    };
    if is_sound(image, places, v, index) {
        return Ok(allowed);
    }
    drop_version(image, places, v, index, allowed)
}

// The version of a group with the given start.
pub fn version_in(g: Rank, start: u32) -> Rank
    requires { (g.high < 256) × (start < 256) }
    ensures { rank_number result ≡ version_in (rank_number g) start }
{
    Rank {
        high: g.high * 256 + start,
        ..g
    }
}

// Of two sound versions of a group the older, with its index.
fn older_of(image: &[u8], places: &[u16], g: Rank) -> Option<(Rank, usize)>
    requires { Gathered image.now places.now × (g.high < 256) }
    ensures { let fs = items_at image.now places.now in MatchOption result (older fs (rank_number g) ≡ []) (λ p. Placed image.now p.1 × (older fs (rank_number g) ≡ drop_version (rank_number p.0) (item_at image.now p.1) fs)) }
{
    let v = version_in(g, 0);
    let w = version_in(g, 0x80);
    // mostly one of them stands alone, and its chunks are not counted again
    let first = newest_of(image, places, v, v)?;
    let second = newest_of(image, places, w, w)?;
    if !is_sound(image, places, v, first) || !is_sound(image, places, w, second) {
        return None;
    }
    // two stand, so one is the newest: the branch spares a proof of that
    let newest = newest_of(image, places, v, w)?;
    if found::version_at(image, newest) == v {
        Some((w, second))
    } else {
        Some((v, first))
    }
}

// Of two sound versions the older goes.
pub fn drop_older(image: &mut [u8], places: &[u16], g: Rank, allowed: u64) -> Ran
    requires { Gathered image.old places.now × (g.high < 256) }
    ensures { Did (older (items_at image.old places.now) (rank_number g)) allowed image.old image.new result × Alike image.old image.new }
{
    match older_of(image, places, g) {
        Some((v, index)) => drop_version(image, places, v, index, allowed),
        None => Ok(allowed),
    }
}
