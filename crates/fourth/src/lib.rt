// Recovery's fourth stage: groups in ascending order, then the last mark: an Active page that has no Empty entry left is closed.
#![tactic(auto)]

ghost use Rattle.std.specs.Prelude.{◌≡◌, ◌&&◌, ◌+◌, ◌*◌, ◌≤◌, eqb, length, take};
ghost use mathlib.Core.List.{map, flat_map};
ghost use Rattle.entry.specs.States.{empty, count_state};
ghost use Rattle.flash.specs.Step.{sector};
ghost use Rattle.flash.specs.Did.{Did};
ghost use Rattle.table.specs.Table.{sectors_of, listed, freed, active_page};
ghost use Rattle.table.specs.PagesPlaced.{PagesPlaced};
ghost use Rattle.found.specs.Found.{found};
ghost use Rattle.found.specs.Places.{place_of, items_at, Lies, Placed, Alike, most_items, sort_room};
ghost use Rattle.lists.specs.Each.{Each};
ghost use Rattle.sort.specs.Rank.{group_by};
ghost use Rattle.lists.specs.Runs.{runs};
ghost use Rattle.duplicates.specs.Duplicates.{groups, last_marks, duplicate_stage};
ghost use Rattle.duplicates.specs.Turns.{group_steps};
ghost use Rattle.duplicates.specs.Runs.{run_steps};

use duplicates::take_run;
use flash::Ran;
use layout::SECTOR_BYTES;
use sort::Order;
use table::{Page, Table};

// The groups one after the other: the first `n` places are sorted by them. Each step is as long as the run that begins there. (A
// loop like those of blobs: one over closures would ask for more clauses than it has lines.)
fn take_runs(image: &mut [u8], room: &mut [u16], n: usize, allowed: u64) -> Ran
    requires { Each (Placed image.old) (take n room.old) × (n ≤ most_items) × (sort_room ≤ length room.old) }
    ensures { Did (flat_map run_steps (runs group_by (items_at image.old (take n room.old)))) allowed image.old image.new result × Alike image.old image.new }
{
    let mut left = allowed;
    let mut a: usize = 0;
    while a < n {
        let m = sort::run_end(image, &room[a..n], 0);
        left = take_run(image, &mut room[a..], m, left)?;
        a += m;
    }
    Ok(left)
}

// Each group, ascending: the places are sorted by their groups, from `MOST_ITEMS` on the room is free for that.
fn make_duplicates(image: &mut [u8], room: &mut [u16], n: usize, allowed: u64) -> Ran
    requires { Each (Placed image.old) (take n room.old) × (n ≤ most_items) × (sort_room ≤ length room.old) }
    ensures { Did (flat_map (group_steps (items_at image.old (take n room.old))) (groups (items_at image.old (take n room.old)))) allowed image.old image.new result × Alike image.old image.new }
{
    sort::sort(image, room, n, Order::Group);
    take_runs(image, room, n, allowed)
}

// Whether the page is Active and has no Empty entry left as the image stands.
fn is_used_up(image: &[u8], p: Page) -> bool
    requires { p.sector * 4096 + 4096 ≤ length image.now }
    ensures { result ≡ (active_page p && eqb (count_state (sector p.sector image.now) empty) 0) }
{
    let a = usize::from(p.sector) * SECTOR_BYTES;
    table::is_active(p.seen.state) && entry::totals_of(&image[a..a + SECTOR_BYTES]).empty == 0
}

// An Active page that now has no Empty entry is marked Full.
pub fn make_last_marks(image: &mut [u8], table: &Table, allowed: u64) -> Ran
    requires { PagesPlaced (sectors_of image.old) (listed table.now) (freed table.now) }
    ensures { Did (last_marks (listed table.now) image.old) allowed image.old image.new result }
{
    let mut left = allowed;
    for p in table.listed().iter() {
        if is_used_up(image, *p) {
            left = item::mark_full(image, usize::from(p.sector), left)?;
        }
    }
    Ok(left)
}

// The stage, on the items at the first `n` places in `room`, which are those found on the listed pages.
pub fn duplicate_stage(
    image: &mut [u8],
    table: &Table,
    room: &mut [u16],
    n: usize,
    allowed: u64,
) -> Ran
    requires { PagesPlaced (sectors_of image.old) (listed table.now) (freed table.now) × Each (Lies image.old) (listed table.now) × (take n room.old ≡ map place_of (found (listed table.now) image.old)) × (n ≤ most_items) × (sort_room ≤ length room.old) }
    ensures { Did (duplicate_stage (listed table.now) image.old) allowed image.old image.new result }
{
    let left = make_duplicates(image, room, n, allowed)?;
    make_last_marks(image, table, left)
}
