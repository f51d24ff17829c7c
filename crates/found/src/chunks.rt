// The chunks of a version.
ghost use Rattle.std.specs.Prelude.{◌≡◌};
ghost use Rattle.found.specs.Found.{chunk_of};
ghost use Rattle.found.specs.Places.{item_at, Placed};
ghost use Rattle.found.specs.Ranks.{rank_number};

use super::items::{is_chunk, version_at};
use super::ranks::Rank;

pub fn is_chunk_of(image: &[u8], place: usize, v: Rank) -> bool
    requires { Placed image.now place }
    ensures { result ≡ chunk_of (rank_number v) (item_at image.now place).raw }
{
    is_chunk(image, place) && version_at(image, place) == v
}
