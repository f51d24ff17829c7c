// The items of one group, in list order: a run of the sorted places.
ghost use Rattle.std.specs.Prelude.{◌≡◌, ◌+◌, ◌≤◌, length, take, drop, get_or};
ghost use Rattle.flash.specs.Did.{Did};
ghost use Rattle.lists.specs.Lists.{keep};
ghost use Rattle.found.specs.Found.{Found, is_chunk};
ghost use Rattle.found.specs.Places.{item_at, items_at, Placed, Alike, most_items};
ghost use Rattle.lists.specs.Each.{Each};
ghost use Rattle.sort.specs.Rank.{group_by};
ghost use Rattle.duplicates.specs.Runs.{run_steps, aged_steps};

use super::old::erase_all_old;
use flash::Ran;
use sort::Order;

// How many chunks are among the items.
fn count_chunks(image: &[u8], places: &[u16]) -> usize
    requires { Each (Placed image.now) places.now }
    ensures { (result ≡ length (keep (λ (x : Found). is_chunk x.raw) (items_at image.now places.now))) × (result ≤ length places.now) }
{
    places
        .iter()
        .filter(|&&place| found::is_chunk(image, usize::from(place)))
        .count()
}

// What goes of the items in order of age.
fn take_aged(image: &mut [u8], places: &[u16], allowed: u64) -> Ran
    requires { Each (Placed image.old) places.now }
    ensures { Did (aged_steps (items_at image.old places.now)) allowed image.old image.new result × Alike image.old image.new }
{
    let k = count_chunks(image, places);
    erase_all_old(image, places, &places[k..], allowed)
}

// What goes of the run that the first `m` places are. What stands from `MOST_ITEMS` on is lost.
pub fn take_run(image: &mut [u8], s: &mut [u16], m: usize, allowed: u64) -> Ran
    requires { Each (Placed image.old) (take m s.old) × (1 ≤ m) × (m ≤ most_items) × (most_items + m ≤ length s.old) × Each (λ (x : Found). group_by x ≡ group_by (item_at image.old (get_or s.old 0 0))) (items_at image.old (take m s.old)) }
    ensures { Did (run_steps (items_at image.old (take m s.old))) allowed image.old image.new result × Alike image.old image.new × (drop m (take most_items s.new) ≡ drop m (take most_items s.old)) }
{
    if m < 2 || found::namespace_at(image, usize::from(s[0])) == 0 {
        return Ok(allowed);
    }
    sort::sort(image, s, m, Order::Age);
    take_aged(image, &s[..m], allowed)
}
