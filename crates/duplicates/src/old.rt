// What goes with the old items of a group.
ghost use Rattle.std.specs.Prelude.{◌≡◌, ◌<◌, length, take, get_or};
ghost use Rattle.flash.specs.Did.{Did};
ghost use Rattle.lists.specs.Lists.{some_of};
ghost use Rattle.found.specs.Found.{Found, erase_all};
ghost use Rattle.found.specs.Places.{item_at, items_at, Placed, Alike};
ghost use Rattle.lists.specs.Each.{Each};
ghost use Rattle.duplicates.specs.Turns.{index_from, takes_chunks, old_one, old_of, last_at};

use flash::Ran;

// Whether the item at `place` is a blob index of the given start.
fn is_start(image: &[u8], place: usize, start: u8) -> bool
    requires { Placed image.now place }
    ensures { result ≡ index_from start (item_at image.now place).raw }
{
    found::is_index(image, place) && found::start_at(image, place) == start
}

// Whether one of the items is a blob index of the given start. From the end on: of many old indices each meets the one before it at once.
fn any_start(image: &[u8], places: &[u16], start: u8) -> bool
    requires { Each (Placed image.now) places.now }
    ensures { result ≡ some_of (λ (x : Found). index_from start x.raw) (items_at image.now places.now) }
{
    places
        .iter()
        .rev()
        .any(|&place| is_start(image, usize::from(place), start))
}

// Whether the old item at `place` takes its chunks with it: it is a blob index, the kept item is none of the same start, and none of those `before` took them.
#[tactic(auto, unfolding(crate::specs::Turns::takes_chunks))]
fn takes_chunks(image: &[u8], before: &[u16], place: usize, kept: usize) -> bool
    requires { Each (Placed image.now) before.now × Placed image.now place × Placed image.now kept }
    ensures { result ≡ takes_chunks (items_at image.now before.now) (item_at image.now kept) (item_at image.now place) }
{
    if !found::is_index(image, place) {
        return false;
    }
    let start = found::start_at(image, place);
    !is_start(image, kept, start) && !any_start(image, before, start)
}

// The old item number `i`, and its chunks.
fn erase_old(image: &mut [u8], places: &[u16], sorted: &[u16], i: usize, allowed: u64) -> Ran
    requires { Each (Placed image.old) places.now × Each (Placed image.old) sorted.now × (i < length sorted.now) }
    ensures { Did (erase_all (old_one (items_at image.old places.now) (item_at image.old (last_at sorted.now)) (items_at image.old (take i sorted.now)) (item_at image.old (get_or sorted.now i 0)))) allowed image.old image.new result × Alike image.old image.new }
{
    let place = usize::from(sorted[i]);
    let kept = usize::from(sorted[sorted.len() - 1]);
    let span = found::span_at(image, place);
    let left = erasing::erase_at(image, place, span, allowed)?;
    if takes_chunks(image, &sorted[..i], place, kept) {
        erasing::erase_chunks(image, places, found::version_at(image, place), left)
    } else {
        Ok(left)
    }
}

// All but the newest, oldest first.
pub fn erase_all_old(image: &mut [u8], places: &[u16], sorted: &[u16], allowed: u64) -> Ran
    requires { Each (Placed image.old) places.now × Each (Placed image.old) sorted.now }
    ensures { Did (erase_all (old_of (items_at image.old places.now) (items_at image.old sorted.now))) allowed image.old image.new result × Alike image.old image.new }
{
    let mut left = allowed;
    for i in 1..sorted.len() {
        left = erase_old(image, places, sorted, i - 1, left)?;
    }
    Ok(left)
}
