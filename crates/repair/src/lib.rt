// Recovery's stages 3 and 4 in sequence.
#![tactic(auto)]

ghost use Rattle.std.specs.Prelude.{◌≡◌, ◌≤◌, map, length, take};
ghost use Rattle.answer.specs.Staged.{tag};
ghost use Rattle.answer.specs.Went.{Made};
ghost use Rattle.records.specs.Notes.{Noted, NoneNoted};
ghost use Rattle.table.specs.Table.{sectors_of, listed, freed};
ghost use Rattle.table.specs.PagesPlaced.{PagesPlaced};
ghost use Rattle.found.specs.Found.{found};
ghost use Rattle.found.specs.Places.{place_of, Lies, most_items, sort_room};
ghost use Rattle.lists.specs.Each.{Each};
ghost use Rattle.duplicates.specs.Duplicates.{last_marks, duplicate_stage};
ghost use Rattle.repair.specs.Repair.{last_stages};
ghost use Rattle.repair.specs.Counted.{Counted};

use answer::{Stage, Went, in_stage};
use slots::SLOTS;
use table::Table;

// Where there is nothing to repair, the last marks are all that is left of the stages.
fn close_full(image: &mut [u8], table: &Table, allowed: u64) -> Went
    requires { PagesPlaced (sectors_of image.old) (listed table.now) (freed table.now) }
    ensures { Made (tag Stage.Duplicates (last_marks (listed table.now) image.old)) allowed image.old image.new result }
{
    in_stage(
        Stage::Duplicates,
        fourth::make_last_marks(image, table, allowed),
    )
}

// Stage 4, on the items at the first `n` places in `room`.
fn repair_items(image: &mut [u8], table: &Table, room: &mut [u16], n: usize, allowed: u64) -> Went
    requires { PagesPlaced (sectors_of image.old) (listed table.now) (freed table.now) × Each (Lies image.old) (listed table.now) × (take n room.old ≡ map place_of (found (listed table.now) image.old)) × (n ≤ most_items) × (sort_room ≤ length room.old) }
    ensures { Made (tag Stage.Duplicates (duplicate_stage (listed table.now) image.old)) allowed image.old image.new result }
{
    in_stage(
        Stage::Duplicates,
        fourth::duplicate_stage(image, table, room, n, allowed),
    )
}

// Stage 4 after stage 3: mostly nothing is left to repair, which the quick test tells without a sort.
fn after_blobs(
    image: &mut [u8],
    table: &Table,
    room: &mut [u16],
    notes: &mut [u16],
    allowed: u64,
) -> Went
    requires { PagesPlaced (sectors_of image.old) (listed table.now) (freed table.now) × Each (Lies image.old) (listed table.now) × (4096 ≤ length room.old) × (16 ≤ length notes.old) }
    ensures { Made (tag Stage.Duplicates (duplicate_stage (listed table.now) image.old)) allowed image.old image.new result × Counted notes.new image.new result }
{
    if quick::is_calm(image, table, room, notes) {
        return close_full(image, table, allowed);
    }
    let n = gathering::gather(image, table, room, notes);
    repair_items(image, table, room, n, allowed)
}

// Stages 3 and 4, each on the items found as it begins, whose places stand in `room`. Where there is no blob these are the same.
fn repair(
    image: &mut [u8],
    table: &Table,
    room: &mut [u16],
    notes: &mut [u16],
    allowed: u64,
) -> Went
    requires { PagesPlaced (sectors_of image.old) (listed table.now) (freed table.now) × Each (Lies image.old) (listed table.now) × (4096 ≤ length room.old) × Noted notes.old image.old }
    ensures { Made (last_stages (listed table.now) image.old) allowed image.old image.new result × Counted notes.new image.new result }
{
    let n = gathering::gather(image, table, room, notes);
    if !blobs::any_part(image, &room[..n]) {
        return repair_items(image, table, room, n, allowed);
    }
    let left = in_stage(Stage::Blobs, blobs::make_blobs(image, room, n, allowed))?;
    after_blobs(image, table, room, notes, left)
}

// Where no page is listed there is no item. The quick test spares a clean store the stages' searches. It takes its slots from the array that the stages work
// in afterwards.
pub fn last_stages(image: &mut [u8], table: &Table, notes: &mut [u16], allowed: u64) -> Went
    requires { PagesPlaced (sectors_of image.old) (listed table.now) (freed table.now) × Each (Lies image.old) (listed table.now) × NoneNoted notes.old }
    ensures { Made (last_stages (listed table.now) image.old) allowed image.old image.new result × Counted notes.new image.new result }
{
    if table.count == 0 {
        return Ok(allowed);
    }
    let mut room = [0u16; SLOTS];
    if quick::is_calm(image, table, &mut room, notes) {
        return close_full(image, table, allowed);
    }
    repair(image, table, &mut room, notes, allowed)
}
