// A version's items erased.
ghost use Rattle.flash.specs.Did.{Did};
ghost use Rattle.found.specs.Places.{item_at, items_at, Placed, Alike};
ghost use Rattle.lists.specs.Each.{Each};
ghost use Rattle.found.specs.Ranks.{rank_number};
ghost use Rattle.versions.specs.Versions.{drop_version};

use flash::Ran;
use found::Rank;

// One entry of the index, then the chunks.
pub fn drop_version(image: &mut [u8], places: &[u16], v: Rank, index: usize, allowed: u64) -> Ran
    requires { Each (Placed image.old) places.now × Placed image.old index }
    ensures { Did (drop_version (rank_number v) (item_at image.old index) (items_at image.old places.now)) allowed image.old image.new result × Alike image.old image.new }
{
    let left = erasing::erase_at(image, index, 1, allowed)?;
    erasing::erase_chunks(image, places, v, left)
}
