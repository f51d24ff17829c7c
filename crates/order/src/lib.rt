// Recovery, stage 1: Active order.
#![tactic(auto)]

ghost use Rattle.std.specs.Prelude.{◌≡◌, cond, [], ◌∷◌, ◌++◌, map, ◌+◌, ◌*◌, ◌≤◌, length};
ghost use Rattle.flash.specs.Did.{Did};
ghost use Rattle.table.specs.Table.{sectors_of, as_full, listed, freed, Holds};
ghost use Rattle.table.specs.Sought.{sought_of};
ghost use Rattle.table.specs.PagesPlaced.{PagesPlaced};
ghost use Rattle.order.specs.Order.{kept, no_empty, ordering, ordered};
ghost use Rattle.order.specs.Turns.{closed_page, full_marks, kept_mark};

use flash::Ran;
use table::{Page, Table};

// The Active page that stays: that of greatest sequence, the first among equals, as a later one takes its place only if its sequence is greater.
fn kept_page(table: &Table) -> Option<Page>
    ensures { result ≡ sought_of (kept (listed table.now)) }
{
    table
        .listed()
        .iter()
        .filter(|p| table::is_active(p.seen.state))
        .reduce(|stays, p| if stays.seen.sequence < p.seen.sequence {
            p
        } else {
            stays
        })
        .copied()
}

// The page, Full if it was Active.
fn close(p: Page) -> Page
    ensures { result ≡ closed_page p }
{
    if table::is_active(p.seen.state) {
        table::as_full(p)
    } else {
        p
    }
}

// Each Active page of the list counts as Full.
fn close_all(table: &mut Table)
    ensures { Holds table.new (map closed_page (listed table.old)) (freed table.old) }
{
    for i in 0..table.count {
        table.pages[i] = close(table.pages[i]);
    }
}

// The kept page, Full if it has no Empty entry.
fn kept_as(p: Page) -> Page
    ensures { result ≡ cond (no_empty p) (as_full p) p }
{
    if p.seen.empty == 0 {
        table::as_full(p)
    } else {
        p
    }
}

// Marks the Active pages of the list Full, in list order.
fn mark_all(image: &mut [u8], table: &Table, allowance: u64) -> Ran
    requires { PagesPlaced (sectors_of image.old) (listed table.now) (freed table.now) }
    ensures { Did (full_marks (listed table.now)) allowance image.old image.new result }
{
    let mut left = allowance;
    for p in table.listed().iter() {
        if table::is_active(p.seen.state) {
            left = item::mark_full(image, usize::from(p.sector), left)?;
        }
    }
    Ok(left)
}

// Marks the kept page Full, if it has no Empty entry.
fn mark_kept(image: &mut [u8], p: Page, left: u64) -> Ran
    requires { p.sector * 4096 + 4096 ≤ length image.old }
    ensures { Did (kept_mark p) left image.old image.new result }
{
    if p.seen.empty != 0 {
        return Ok(left);
    }
    item::mark_full(image, usize::from(p.sector), left)
}

// Marks the others that are Active Full, then the kept page.
fn make_marks(image: &mut [u8], others: &Table, kept: Page, allowance: u64) -> Ran
    requires { PagesPlaced (sectors_of image.old) (listed others.now) (freed others.now) × (kept.sector * 4096 + 4096 ≤ length image.old) }
    ensures { Did (full_marks (listed others.now) ++ kept_mark kept) allowance image.old image.new result }
{
    let left = mark_all(image, others, allowance)?;
    mark_kept(image, kept, left)
}

// Makes the steps of this stage for the pages that the table lists, and leaves the lists as they are after all of them.
pub fn order_pages(image: &mut [u8], table: &mut Table, allowance: u64) -> Ran
    requires { PagesPlaced (sectors_of image.old) (listed table.old) (freed table.old) }
    ensures { Did (ordering (listed table.old)) allowance image.old image.new result × Holds table.new (ordered (listed table.old)) (freed table.old) }
{
    let Some(a) = kept_page(table) else {
        return Ok(allowance);
    };
    table.take_out(a.sector);
    let ran = make_marks(image, table, a, allowance);
    close_all(table);
    table.append_page(kept_as(a));
    ran
}
