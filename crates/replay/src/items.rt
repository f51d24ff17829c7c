// The answer to op 2: what the item reader hands out, and what it has counted when no item is left.
ghost use Rattle.std.specs.Prelude.{◌≡◌, ◌≤◌, length};

use crate::bytes::{low, put_four};
use layout::{ENTRIES_AT, ENTRY_BYTES, PAGE_ENTRIES, SECTOR_BYTES};
use reader::{Handed, ItemReader};

// The longest answer: result, count, 126 items of 36 bytes, unread.
pub const MOST_BYTES: usize = 4545;

// An item's place in the answer: its entry, and its 32 header bytes.
const ITEMS_AT: usize = 5;

const ITEM_BYTES: usize = 36;

// (The reader hands out no entry past 125; the test spares a proof of that here.)
fn put_item(sector: &[u8], entry: usize, out: &mut [u8])
    requires { (length sector.now ≡ 4096) × (length out.old ≡ 36) }
{
    put_four(out, 0, low(entry));
    if entry < PAGE_ENTRIES {
        let from = ENTRIES_AT + entry * ENTRY_BYTES;
        out[4..].copy_from_slice(&sector[from..from + ENTRY_BYTES]);
    }
}

// The items that the reader hands out; says how many there are.
fn put_items(reader: &mut ItemReader, sector: &[u8], out: &mut [u8]) -> usize
    requires { (length sector.now ≡ 4096) × (4541 ≤ length out.old) }
    ensures { result ≤ 126 }
{
    for count in 0..PAGE_ENTRIES {
        let Handed::Item(item) = reader.next() else {
            return count;
        };
        let at = ITEMS_AT + count * ITEM_BYTES;
        put_item(sector, item.entry, &mut out[at..at + ITEM_BYTES]);
    }
    PAGE_ENTRIES
}

// The count that the reader says when no item is left.
fn said(handed: Handed) -> u8 {
    match handed {
        Handed::End(unread) => unread,
        Handed::Item(_) | Handed::NotSector => 0,
    }
}

// The whole answer; says how long it is.
pub fn answer(sector: &[u8], out: &mut [u8]) -> usize
    requires { length out.old ≡ 4545 }
    ensures { result ≤ 4545 }
{
    out[0] = reader::result(reader::read_from(sector, 0, 0).handed);
    let mut reader = ItemReader::new(sector);
    let count = if sector.len() == SECTOR_BYTES {
        put_items(&mut reader, sector, out)
    } else {
        0
    };
    let end = ITEMS_AT + count * ITEM_BYTES;
    put_four(out, 1, low(count));
    put_four(out, end, u32::from(said(reader.next())));
    end + 4
}
