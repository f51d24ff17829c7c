// A version: the index that counts, and whether its chunks are as the index says.
ghost use Rattle.std.specs.Prelude.{◌≡◌};
ghost use Rattle.found.specs.Places.{item_at, items_at, Placed};
ghost use Rattle.lists.specs.Each.{Each};
ghost use Rattle.found.specs.Ranks.{rank_number};
ghost use Rattle.versions.specs.Versions.{sound};
ghost use Rattle.versions.specs.Search.{Gathered, newest_of, PlacedAt, index_of_either, newest_index, newest_with};

use found::Rank;
use layout::{ENTRY_BYTES, VERSION_CHUNKS};

// Whether an index of one of two versions stands there.
fn is_index_of(image: &[u8], place: usize, v: Rank, w: Rank) -> bool
    requires { Placed image.now place }
    ensures { result ≡ index_of_either (rank_number v) (rank_number w) (item_at image.now place).raw }
{
    if !found::is_index(image, place) {
        return false;
    }
    let version = found::version_at(image, place);
    version == v || version == w
}

// The newer of an index and the newest of those behind it: among equals the later.
fn newer_of(image: &[u8], place: usize, v: Rank, w: Rank, best: Option<usize>) -> Option<usize>
    requires { Placed image.now place × PlacedAt image.now best }
    ensures { (newest_of image.now result ≡ newest_with (rank_number v) (rank_number w) (item_at image.now place) (newest_of image.now best)) × PlacedAt image.now result }
{
    if !is_index_of(image, place, v, w) {
        return best;
    }
    match best {
        Some(later) if found::is_newer(image, later, place) => best,
        _ => Some(place),
    }
}

// The newest index of two versions; of one, where they are the same.
pub fn newest_of(image: &[u8], places: &[u16], v: Rank, w: Rank) -> Option<usize>
    requires { Each (Placed image.now) places.now }
    ensures { (newest_of image.now result ≡ newest_index (rank_number v) (rank_number w) (items_at image.now places.now)) × PlacedAt image.now result }
{
    let mut best = None;
    for &place in places.iter().rev() {
        best = newer_of(image, usize::from(place), v, w, best);
    }
    best
}

// Whether the version's chunks are numbered from 0 up to the count of the index at `index`, each once, and are as large as it says: no more chunks than are
// counted, each of a new number below the count, leave no number out. The sizes are summed in 64 bits, so that the sum does not wrap.
pub fn is_sound(image: &[u8], places: &[u16], v: Rank, index: usize) -> bool
    requires { Gathered image.now places.now × Placed image.now index }
    ensures { result ≡ sound (rank_number v) (items_at image.now places.now) (item_at image.now index) }
{
    let count = usize::from(entry::index_count(image, index * ENTRY_BYTES));
    let mut seen = [false; VERSION_CHUNKS];
    let mut chunks: usize = 0;
    let mut size: u64 = 0;
    for &place in places.iter().rev() {
        let place = usize::from(place);
        if !found::is_chunk_of(image, place, v) {
            continue;
        }
        let n = found::number_at(image, place);
        if count <= n {
            return false;
        }
        if seen[n] {
            return false;
        }
        seen[n] = true;
        chunks += 1;
        size += u64::from(entry::chunk_size(image, place * ENTRY_BYTES));
    }
    chunks == count && u64::from(entry::index_size(image, index * ENTRY_BYTES)) == size
}
