// Items erased, each by its place.
#![tactic(auto)]

ghost use Rattle.std.specs.Prelude.{◌+◌, ◌%◌, ◌≤◌};
ghost use Rattle.flash.specs.Did.{Did};
ghost use Rattle.item.specs.Erase.{erasing};
ghost use Rattle.lists.specs.Each.{Each};
ghost use Rattle.found.specs.Found.{chunks, erase_all};
ghost use Rattle.found.specs.Places.{item_at, items_at, Placed, Alike};
ghost use Rattle.found.specs.Ranks.{rank_number};

use flash::Ran;
use found::{Rank, is_chunk_of, span_at};
use layout::{FIRST_PLACE, SECTOR_PLACES};

// Erases `n` entries from the item's first on.
pub fn erase_at(image: &mut [u8], place: usize, n: usize, allowed: u64) -> Ran
    requires { Placed image.old place × (place % 128 + n ≤ 128) }
    ensures { Did (erasing (item_at image.old place).sector (item_at image.old place).entry n) allowed image.old image.new result × Alike image.old image.new }
{
    item::erase_item(
        image,
        place / SECTOR_PLACES,
        place % SECTOR_PLACES - FIRST_PLACE,
        n,
        allowed,
    )
}

// The chunks of a version, erased in list order, then entry order, each with its whole span.
pub fn erase_chunks(image: &mut [u8], places: &[u16], v: Rank, allowed: u64) -> Ran
    requires { Each (Placed image.old) places.now }
    ensures { Did (erase_all (chunks (rank_number v) (items_at image.old places.now))) allowed image.old image.new result × Alike image.old image.new }
{
    let mut left = allowed;
    for p in places {
        let place = usize::from(*p);
        if is_chunk_of(image, place, v) {
            left = erase_at(image, place, span_at(image, place), left)?;
        }
    }
    Ok(left)
}
