// The newest page, and whether it makes a source needless. It only reads.
ghost use Rattle.std.specs.Prelude.{◌≡◌, ◌+◌, ◌*◌, ◌≤◌, length};
ghost use Rattle.table.specs.Table.{sectors_of, listed, freed};
ghost use Rattle.table.specs.Sought.{sought_of};
ghost use Rattle.table.specs.PagesPlaced.{PagesPlaced};
ghost use Rattle.finish.specs.Finish.{newest, newest_holds};

use crate::judge::{Alike, matches};
use table::{Page, Table};

// The newest page of the list: the last among equals.
fn newest_page(table: &Table) -> Option<Page>
    ensures { result ≡ sought_of (newest (listed table.now)) }
{
    table
        .listed()
        .iter()
        .max_by_key(|p| p.seen.sequence)
        .copied()
}

// Whether the newest page of the list is newer than the source `x` and holds each of its items.
pub fn newest_holds(image: &[u8], x: Page, table: &Table) -> bool
    requires { PagesPlaced (sectors_of image.now) (listed table.now) (freed table.now) × (x.sector * 4096 + 4096 ≤ length image.now) }
    ensures { result ≡ newest_holds x image.now (newest (listed table.now)) }
{
    let Some(y) = newest_page(table) else {
        return false;
    };
    if y.seen.sequence <= x.seen.sequence {
        return false;
    }
    matches(
        Alike::Name,
        image,
        usize::from(x.sector),
        usize::from(y.sector),
    )
}
