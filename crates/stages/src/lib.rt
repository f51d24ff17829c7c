// Recovery's stages in sequence.
#![tactic(auto)]

ghost use Rattle.std.specs.Prelude.{◌≡◌, ◌+◌, ◌≤◌, ◌*◌, length, false};
ghost use Rattle.lists.specs.Lists.{greatest};
ghost use Rattle.answer.specs.Went.{Made};
ghost use Rattle.records.specs.Notes.{NoneNoted};
ghost use Rattle.table.specs.Table.{sectors_of, pages, frees, sequence, listed, freed, Holds};
ghost use Rattle.table.specs.PagesPlaced.{PagesPlaced};
ghost use Rattle.finishing.specs.Finishing.{freeings};
ghost use Rattle.stages.specs.Stages.{from_order, from_finish, recovering, too_high};
ghost use Rattle.repair.specs.Counted.{Counted};

use answer::{Stage, Went, in_stage};
use layout::SECTOR_BYTES;
use table::Table;

// Stage 1 on the lists as they were scanned, then stages 3 and 4.
fn from_order(image: &mut [u8], table: &mut Table, notes: &mut [u16], allowed: u64) -> Went
    requires { Holds table.old (pages image.old) (frees image.old) × (sectors_of image.old ≤ 16) × NoneNoted notes.old }
    ensures { Made (from_order (pages image.old) image.old) allowed image.old image.new result × Counted notes.new image.new result }
{
    let left = in_stage(Stage::Order, order::order_pages(image, table, allowed))?;
    repair::last_stages(image, table, notes, left)
}

// Stage 2, `count` rounds of it, then the scan and stage 1 again.
fn from_finish(
    image: &mut [u8],
    table: Table,
    count: usize,
    notes: &mut [u16],
    allowed: u64,
) -> Went
    requires { PagesPlaced (sectors_of image.old) (listed table) (freed table) × (count ≡ freeings (listed table)) × (greatest sequence (listed table) + count ≤ 0xFFFF_FFFE) × (length image.old ≡ sectors_of image.old * 4096) × (sectors_of image.old ≤ 16) × NoneNoted notes.old }
    ensures { Made (from_finish (listed table) (freed table) image.old) allowed image.old image.new result × Counted notes.new image.new result }
{
    let left = finishing::finish_all(image, table, count, allowed)?;
    let mut again = table::scan(image, image.len() / SECTOR_BYTES);
    from_order(image, &mut again, notes, left)
}

// All stages, where `table` is what the scan found.
pub fn make_stages(image: &mut [u8], table: Table, notes: &mut [u16], allowed: u64) -> Went
    requires { Holds table (pages image.old) (frees image.old) × (length image.old ≡ sectors_of image.old * 4096) × (sectors_of image.old ≤ 16) × (too_high (pages image.old) ≡ false) × NoneNoted notes.old }
    ensures { Made (recovering image.old) allowed image.old image.new result × Counted notes.new image.new result }
{
    let mut table = table;
    let left = in_stage(Stage::Order, order::order_pages(image, &mut table, allowed))?;
    let count = finishing::count_freeing(&table);
    if count == 0 {
        return repair::last_stages(image, &table, notes, left);
    }
    from_finish(image, table, count, notes, left)
}
