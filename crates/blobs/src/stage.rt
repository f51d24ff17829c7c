// The stage: versions in ascending order, then the older of two, group by group.
ghost use Rattle.std.specs.Prelude.{◌≡◌, ◌<◌, ◌≤◌, length, take};
ghost use mathlib.Core.List.{◌++◌, flat_map};
ghost use Rattle.flash.specs.Did.{Did};
ghost use Rattle.lists.specs.Lists.{some_of};
ghost use Rattle.found.specs.Found.{Found, is_part};
ghost use Rattle.found.specs.Places.{items_at, Placed, Alike, most_items, sort_room};
ghost use Rattle.lists.specs.Each.{Each};
ghost use Rattle.sort.specs.Rank.{group_by};
ghost use Rattle.sort.specs.Runs.{RunEnds};
ghost use Rattle.lists.specs.Runs.{runs};
ghost use Rattle.blobs.specs.Blobs.{blob_steps};
ghost use Rattle.versions.specs.Search.{Gathered};
ghost use Rattle.blobs.specs.Runs.{space_by, start_steps, space_steps, older_steps};

use super::front::keep_parts;
use flash::Ran;
use sort::Order;

// The versions of one start: the places are sorted by their groups.
// Three loops over runs: one over closures needs a ghost pass and five clauses on what they may be called with and answer, for these five lines.
fn judge_start(image: &mut [u8], places: &[u16], start: u32, allowed: u64) -> Ran
    requires { Gathered image.old places.now × (start < 256) }
    ensures { Did (flat_map (start_steps start) (runs group_by (items_at image.old places.now))) allowed image.old image.new result × Alike image.old image.new }
{
    let mut left = allowed;
    let mut a: usize = 0;
    // the step is as long as the run that begins at `a`
    while a < places.len() {
        let e = sort::run_end(image, places, a);
        let g = found::group_at(image, usize::from(places[a]));
        left = judging::judge_version(image, &places[a..e], judging::version_in(g, start), left)?;
        a = e;
    }
    Ok(left)
}

// The versions of one namespace, ascending: those of start 0, then those of start 0x80.
fn judge_space(image: &mut [u8], places: &[u16], allowed: u64) -> Ran
    requires { Gathered image.old places.now }
    ensures { Did (space_steps (items_at image.old places.now)) allowed image.old image.new result × Alike image.old image.new }
{
    let left = judge_start(image, places, 0, allowed)?;
    judge_start(image, places, 0x80, left)
}

// Where the run of places of one namespace that begins at `a` ends.
fn space_end(image: &[u8], places: &[u16], a: usize) -> usize
    requires { Each (Placed image.now) places.now × (a < length places.now) }
    ensures { RunEnds space_by image.now places.now a result }
{
    let space = found::namespace_at(image, usize::from(places[a]));
    sort::end_of(places, a, |p| found::namespace_at(image, p) == space)
}

// All versions, namespace by namespace.
fn judge_all(image: &mut [u8], places: &[u16], allowed: u64) -> Ran
    requires { Gathered image.old places.now }
    ensures { Did (flat_map space_steps (runs space_by (items_at image.old places.now))) allowed image.old image.new result × Alike image.old image.new }
{
    let mut left = allowed;
    let mut a: usize = 0;
    // the step is as long as the run that begins at `a`
    while a < places.len() {
        let e = space_end(image, places, a);
        left = judge_space(image, &places[a..e], left)?;
        a = e;
    }
    Ok(left)
}

// Group by group, of two sound versions the older goes.
fn drop_all_older(image: &mut [u8], places: &[u16], allowed: u64) -> Ran
    requires { Gathered image.old places.now }
    ensures { Did (flat_map older_steps (runs group_by (items_at image.old places.now))) allowed image.old image.new result × Alike image.old image.new }
{
    let mut left = allowed;
    let mut a: usize = 0;
    // the step is as long as the run that begins at `a`
    while a < places.len() {
        let e = sort::run_end(image, places, a);
        let g = found::group_at(image, usize::from(places[a]));
        left = judging::drop_older(image, &places[a..e], g, left)?;
        a = e;
    }
    Ok(left)
}

fn take_parts(image: &mut [u8], places: &[u16], allowed: u64) -> Ran
    requires { Gathered image.old places.now }
    ensures { Did (flat_map space_steps (runs space_by (items_at image.old places.now)) ++ flat_map older_steps (runs group_by (items_at image.old places.now))) allowed image.old image.new result × Alike image.old image.new }
{
    let left = judge_all(image, places, allowed)?;
    drop_all_older(image, places, left)
}

// Whether there is a chunk or a blob index: where there is none, there is no step.
pub fn any_part(image: &[u8], places: &[u16]) -> bool
    requires { Each (Placed image.now) places.now }
    ensures { result ≡ some_of (λ (x : Found). is_part x.raw) (items_at image.now places.now) }
{
    places
        .iter()
        .any(|&place| found::is_part(image, usize::from(place)))
}

// The stage, on the items at the first `n` places in `room`, which is lost: the parts of blobs are put in front, and sorted by their groups.
pub fn make_blobs(image: &mut [u8], room: &mut [u16], n: usize, allowed: u64) -> Ran
    requires { Each (Placed image.old) (take n room.old) × (n ≤ most_items) × (sort_room ≤ length room.old) }
    ensures { Did (blob_steps (items_at image.old (take n room.old))) allowed image.old image.new result × Alike image.old image.new }
{
    let k = keep_parts(image, room, n);
    sort::sort(image, room, k, Order::Group);
    take_parts(image, &room[..k], allowed)
}
