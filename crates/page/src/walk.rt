// The item walk of a sector.
ghost use Rattle.std.specs.Prelude.{◌≡◌, ◌<◌, ◌≤◌, eqb, length};
ghost use Rattle.entry.specs.States.{one, written, state_at};
ghost use Rattle.page.specs.Walk.{is_item, reading_of};
ghost use Rattle.page.specs.Unread.{unread_from};

use entry::{EntryState, Key, Kind};
use layout::{ENTRIES_AT, ENTRY_BYTES, PAGE_ENTRIES};

// An item as its header tells it: where it stands, and what the 32 bytes say. `data_bytes` is the eight data bytes as a number, lowest first.
#[derive(Clone, Copy)]
pub struct ItemHeader {
    pub entry: usize,
    pub namespace: u8,
    pub kind: Kind,
    pub span: usize,
    pub chunk_index: u8,
    pub key: Key,
    pub data_bytes: u64,
}

// Whether an item begins at entry `i`. The CRC is tested late: it is what costs time.
pub fn is_item(s: &[u8], i: usize) -> bool
    requires { (length s.now ≡ 4096) × (i < 126) }
    ensures { result ≡ is_item s.now i }
{
    let at = ENTRIES_AT + i * ENTRY_BYTES;
    entry::entry_state(s, i) == EntryState::Written
        && word::le32(s, at + 4) == entry::entry_crc(s, at)
        && entry::is_known(entry::kind_of(s[at + 1]))
        && s[at + 2] != 0
        && i + usize::from(s[at + 2]) <= PAGE_ENTRIES
}

// The item that begins at entry `i`, if one does.
pub fn read_entry(s: &[u8], i: usize) -> Option<ItemHeader>
    requires { (length s.now ≡ 4096) × (i < 126) }
    ensures { result ≡ reading_of s.now i }
{
    if !is_item(s, i) {
        return None;
    }
    let at = ENTRIES_AT + i * ENTRY_BYTES;
    Some(ItemHeader {
        entry: i,
        namespace: s[at],
        kind: entry::kind_of(s[at + 1]),
        span: usize::from(s[at + 2]),
        chunk_index: s[at + 3],
        key: entry::key_at(s, at),
        data_bytes: word::le64(s, at + 24),
    })
}

// 1 for a Written entry, else 0: what an entry that is no item adds to the unread ones.
pub fn one_written(s: &[u8], i: usize) -> u8
    requires { (length s.now ≡ 4096) × (i < 126) }
    ensures { (result ≡ one (eqb (state_at s.now i) written)) × (result ≤ 1) }
{
    u8::from(entry::entry_state(s, i) == EntryState::Written)
}

// How many entries of the sector are unread: the walk of crate walking without the places, which nobody wants here.
pub fn unread_of(s: &[u8]) -> u8
    requires { length s.now ≡ 4096 }
    ensures { result ≡ unread_from s.now 126 0 }
{
    let mut unread: u8 = 0;
    let mut i: usize = 0;
    // no index is counted: the walk goes on by the item's span, or by one
    while i < PAGE_ENTRIES {
        if is_item(s, i) {
            i += usize::from(s[ENTRIES_AT + i * ENTRY_BYTES + 2]);
            continue;
        }
        unread += one_written(s, i);
        i += 1;
    }
    unread
}
