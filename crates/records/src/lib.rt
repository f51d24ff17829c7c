// The page records of an image: made of what the scan saw and the walks counted, and stored into the records that a caller lends.
#![tactic(auto)]

mod scanned;
mod seeing;

ghost use Rattle.std.specs.Prelude.{◌≡◌, ◌+◌, ◌*◌, ◌<◌, ◌≤◌, length, get_or};
ghost use Rattle.flash.specs.Step.{sector};
ghost use Rattle.page.specs.State.{state_of};
ghost use Rattle.page.specs.Unread.{unread_of};
ghost use Rattle.page.specs.Record.{seen_of};
ghost use Rattle.records.specs.Records.{each_to, filled, blank_record, no_rows, rows_of};
ghost use Rattle.records.specs.Scanned.{listed};
ghost use Rattle.records.specs.Notes.{Noted};

use layout::{MOST_SECTORS, SECTOR_BYTES};
use page::{PageRecord, PageState};
pub use scanned::Scanned;
pub use seeing::see_all;

// The records of an image's sectors: `count` is 0 where a call stores none. An array with its count, as recovery promises sixteen rows by value.
#[derive(Clone, Copy)]
pub struct Rows {
    pub rows: [PageRecord; MOST_SECTORS],
    pub count: usize,
}

fn blank_record() -> PageRecord
    ensures { result ≡ blank_record }
{
    PageRecord::default()
}

// Of a call that is refused or stopped.
pub fn no_rows() -> Rows
    ensures { result ≡ no_rows }
{
    let rows = [blank_record(); MOST_SECTORS];
    Rows { rows, count: 0 }
}

// The unread entries of sector `n`, whose state is known: as a walk noted them, one more than they are, or, where nothing is noted, by a walk. (Recovery notes
// every page that it leaves; the walk spares a proof of that here.)
fn unread_in(image: &[u8], n: usize, state: PageState, notes: &[u16]) -> u8
    requires { (n * 4096 + 4096 ≤ length image.now) × (n < 16) × (state ≡ state_of (sector n image.now)) × Noted notes.now image.now }
    ensures { result ≡ unread_of (sector n image.now) }
{
    if page::is_free(state) {
        return 0;
    }
    let noted = notes[n];
    if noted != 0 {
        return (noted - 1) as u8;
    }
    let a = n * SECTOR_BYTES;
    let e = a + SECTOR_BYTES;
    page::unread_of(&image[a..e])
}

// The record of each sector that was scanned, in sector order. What stands in the scan past its sectors counts for nothing.
pub fn make_rows(image: &[u8], scanned: &Scanned, notes: &[u16]) -> Rows
    requires { (length image.now ≡ scanned.now.count * 4096) × (listed scanned.now ≡ each_to seen_of image.now scanned.now.count) × Noted notes.now image.now }
    ensures { result ≡ rows_of image.now scanned.now.count }
{
    let mut rows = [blank_record(); MOST_SECTORS];
    for (n, seen) in scanned.listed().iter().enumerate() {
        rows[n] = page::with_unread(*seen, unread_in(image, n, seen.state, notes));
    }
    let count = scanned.count;
    Rows { rows, count }
}

// The rows go into the lent records; those behind them stay.
pub fn fill(records: &mut [PageRecord], table: Rows)
    requires { (table.count ≤ 16) × (table.count ≤ length records.old) }
    ensures { records.new ≡ filled table.count table.rows records.old }
{
    records[..table.count].copy_from_slice(&table.rows[..table.count]);
}
