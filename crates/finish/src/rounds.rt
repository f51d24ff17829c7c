// A round of stage 2: one source is finished.
ghost use Rattle.std.specs.Prelude.{◌≡◌, cond, ◌+◌, ◌*◌, ◌<◌, OnErr};
ghost use Rattle.std.proofs.Math.Option.{some, none};
ghost use mathlib.Core.List.{[], ◌∷◌, ◌++◌, get_last?};
ghost use Rattle.flash.specs.Step.{erase, run};
ghost use Rattle.lists.specs.Lists.{first_of, greatest, take_out};
ghost use Rattle.table.specs.Table.{sectors_of, sequence, active_page, freeing_page, in_sector, listed, freed};
ghost use Rattle.table.specs.PagesPlaced.{PagesPlaced};
ghost use Rattle.finish.specs.Finish.{next_sequence, afresh, after, round_with, round};
ghost use Rattle.finish.specs.Rounds.{Makes};

use crate::judge::{Alike, matches};
use crate::newest::newest_holds;
use flash::Ran;
use layout::SECTOR_BYTES;
use page::PageState;
use table::{Page, Table};

// The source `x`, which is out of the lists, goes to the last free sector; with none it goes to the front and counts as Full.
fn copy_afresh(image: &mut [u8], x: Page, table: &mut Table, allowance: u64) -> Ran
    requires { PagesPlaced (sectors_of image.old) (x ∷ listed table.old) (freed table.old) × (next_sequence x (listed table.old) < 0x1_0000_0000) }
    ensures { Makes (afresh x (listed table.old) (freed table.old) image.old (get_last? (freed table.old))) allowance image.old image.new result table.new }
{
    let Some(target) = table.freed().last().copied() else {
        table.prepend_page(table::as_full(x));
        return Ok(allowance);
    };
    let source = usize::from(x.sector);
    let place = usize::from(target);
    let top = table.greatest_sequence().max(x.seen.sequence);
    let left = relocate::move_page(image, source, place, top + 1, allowance)?;
    let a = place * SECTOR_BYTES;
    let seen = page::see(&image[a..a + SECTOR_BYTES]);
    table.drop_free();
    table.append_page(Page {
        sector: target,
        seen,
    });
    table.join_free(x.sector);
    Ok(left)
}

// The Active page `y` is a partial copy of `x`: it is erased, never resumed, and `x` is copied afresh.
fn erase_copy(image: &mut [u8], x: Page, y: Page, table: &mut Table, allowance: u64) -> Ran
    requires { PagesPlaced (sectors_of image.old) (x ∷ listed table.old) (freed table.old) × (first_of active_page (listed table.old) ≡ some y) × (next_sequence x (listed table.old) < 0x1_0000_0000) }
    ensures { Makes (after (erase y.sector ∷ []) (afresh x (take_out (in_sector y.sector) (listed table.old)) (freed table.old ++ (y.sector ∷ [])) (run (erase y.sector ∷ []) image.old) (get_last? (freed table.old ++ (y.sector ∷ []))))) allowance image.old image.new result table.new }
{
    table.take_out(y.sector);
    table.join_free(y.sector);
    let left = flash::erase_sector(image, usize::from(y.sector), allowance)?;
    copy_afresh(image, x, table, left)
}

// The round where `y` is the first Active page.
fn beside_active(image: &mut [u8], x: Page, y: Page, table: &mut Table, allowance: u64) -> Ran
    requires { PagesPlaced (sectors_of image.old) (x ∷ listed table.old) (freed table.old) × (first_of active_page (listed table.old) ≡ some y) × (next_sequence x (listed table.old) < 0x1_0000_0000) }
    ensures { Makes (round_with x (listed table.old) (freed table.old) image.old (some y)) allowance image.old image.new result table.new }
{
    let copy = usize::from(y.sector);
    let source = usize::from(x.sector);
    if matches(Alike::Header, image, copy, source) {
        return erase_copy(image, x, y, table, allowance);
    }
    copy_afresh(image, x, table, allowance)
}

// The round where no page is Active.
fn without_active(image: &mut [u8], x: Page, table: &mut Table, allowance: u64) -> Ran
    requires { PagesPlaced (sectors_of image.old) (x ∷ listed table.old) (freed table.old) × (next_sequence x (listed table.old) < 0x1_0000_0000) }
    ensures { Makes (round_with x (listed table.old) (freed table.old) image.old none) allowance image.old image.new result table.new }
{
    if newest_holds(image, x, table) {
        table.join_free(x.sector);
        return flash::erase_sector(image, usize::from(x.sector), allowance);
    }
    copy_afresh(image, x, table, allowance)
}

// The round of the source `x`, the first Freeing page, on lists that count only where all its steps were made.
fn make_round(image: &mut [u8], x: Page, table: &mut Table, allowance: u64) -> Ran
    requires { PagesPlaced (sectors_of image.old) (listed table.old) (freed table.old) × (first_of freeing_page (listed table.old) ≡ some x) × (greatest sequence (listed table.old) < 0xFFFF_FFFF) }
    ensures { Makes (round x (listed table.old) (freed table.old) image.old) allowance image.old image.new result table.new }
{
    table.take_out(x.sector);
    let Some(y) = table.first_in(PageState::Active) else {
        return without_active(image, x, table, allowance);
    };
    beside_active(image, x, y, table, allowance)
}

// The round of the source `x`, the first Freeing page. Where not all steps were made the lists stay as they were.
pub fn round(image: &mut [u8], x: Page, table: &mut Table, allowance: u64) -> Ran
    requires { PagesPlaced (sectors_of image.old) (listed table.old) (freed table.old) × (first_of freeing_page (listed table.old) ≡ some x) × (greatest sequence (listed table.old) < 0xFFFF_FFFF) }
    ensures made { Makes (round x (listed table.old) (freed table.old) image.old) allowance image.old image.new result table.new }
    ensures stopped { OnErr result (table.new ≡ table.old) }
{
    let mut lists = *table;
    let left = make_round(image, x, &mut lists, allowance)?;
    *table = lists;
    Ok(left)
}
