// What is read at a place of a lent sector: the walk of the item reader, on a plain slice and numbers.
#![tactic(auto)]

ghost use Rattle.std.specs.Prelude.{◌≡◌, length};
ghost use Rattle.page.specs.Walk.{walk};
ghost use Rattle.page.specs.Unread.{passed_from};
ghost use Rattle.reading.specs.Reading.{counted_on, read_of, read_on, begins_at, result_of};

use layout::{PAGE_ENTRIES, SECTOR_BYTES};
use page::ItemHeader;

// No page has more unread entries than it has entries.
const MOST_UNREAD: u8 = 126;

// What the reader hands out: one of three, so no Option. `End(n)`: no item is left, and n entries were passed over unread since the reader began.
// `NotSector` is result 1: the lent bytes are not 4,096.
#[derive(Clone, Copy)]
pub enum Handed {
    Item(ItemHeader),
    End(u8),
    NotSector,
}

// What stands at a place, the place behind it, and the entries passed over unread so far.
#[derive(Clone, Copy)]
pub struct Read {
    pub handed: Handed,
    pub next: usize,
    pub unread: u8,
}

// The number that document 01 gives an answer.
pub fn result(handed: Handed) -> u8
    ensures { result ≡ result_of handed }
{
    match handed {
        Handed::Item(_) | Handed::End(_) => 0,
        Handed::NotSector => 1,
    }
}

// The count so far and what was passed since. The sum has to fit for any count that a caller names, so it ends at the most that a page has; no reader comes
// to more.
#[tactic(auto, unfolding(crate::specs::Reading::counted_on))]
fn counted_on(unread: u8, passed: u8) -> u8
    ensures { result ≡ counted_on unread passed }
{
    unread.saturating_add(passed).min(MOST_UNREAD)
}

// The first item at entry `from` or after.
fn next_item(s: &[u8], from: usize, unread: u8) -> Read
    requires { length s.now ≡ 4096 }
    ensures { result ≡ read_of (counted_on unread (passed_from s.now 126 from)) (walk s.now 126 from) }
{
    let mut passed: u8 = 0;
    for i in from..PAGE_ENTRIES {
        let Some(item) = page::read_entry(s, i) else {
            passed += page::one_written(s, i);
            continue;
        };
        return Read {
            handed: Handed::Item(item),
            next: i + item.span,
            unread: counted_on(unread, passed),
        };
    }
    let counted = counted_on(unread, passed);
    Read {
        handed: Handed::End(counted),
        next: PAGE_ENTRIES,
        unread: counted,
    }
}

// What a reader hands out whose place is `entry`. The sector is not judged here: that is done once, where a reader begins.
pub fn next_from(s: &[u8], entry: usize, unread: u8) -> Read
    ensures { result ≡ read_on s.now entry unread }
{
    if s.len() != SECTOR_BYTES {
        return Read {
            handed: Handed::NotSector,
            next: entry,
            unread,
        };
    }
    next_item(s, entry, unread)
}

// Where a reader of the sector begins: at the first entry; at the end, where the sector is free and has no item.
pub fn begins_at(sector: &[u8]) -> usize
    ensures { result ≡ begins_at sector.now }
{
    if sector.len() == SECTOR_BYTES && page::is_free(page::page_state(sector)) {
        PAGE_ENTRIES
    } else {
        0
    }
}
