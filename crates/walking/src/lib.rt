// The walk of a sector that stores the places of its items.
#![tactic(auto)]

ghost use Rattle.std.specs.Prelude.{◌≡◌, ◌++◌, map, ◌+◌, ◌≤◌, length, take};
ghost use Rattle.page.specs.Walk.{Laid, walk};
ghost use Rattle.page.specs.Unread.{unread_from};

use layout::{ENTRIES_AT, ENTRY_BYTES, PAGE_ENTRIES};
use page::{is_item, one_written};

// What one walk of a sector gives: where the places end that it stored, and how many entries are unread.
#[derive(Clone, Copy)]
pub struct Walked {
    pub end: usize,
    pub unread: u8,
}

// The entry numbers of the sector's items plus `base`, into `out` from `from` on: one walk, each entry read once and no header made.
pub fn places(s: &[u8], base: usize, out: &mut [u16], from: usize) -> Walked
    requires { (length s.now ≡ 4096) × (base + 126 ≤ 65536) × (from + 126 ≤ length out.old) }
    ensures { (take result.end out.new ≡ take from out.old ++ map (λ (x : Laid). base + x.entry) (walk s.now 126 0)) × (result.end ≤ from + 126) × (result.unread ≡ unread_from s.now 126 0) }
{
    let mut end = from;
    let mut unread: u8 = 0;
    let mut i: usize = 0;
    // no index is counted: the walk goes on by the item's span, or by one
    while i < PAGE_ENTRIES {
        if !is_item(s, i) {
            unread += one_written(s, i);
            i += 1;
            continue;
        }
        out[end] = (base + i) as u16;
        end += 1;
        i += usize::from(s[ENTRIES_AT + i * ENTRY_BYTES + 2]);
    }
    Walked { end, unread }
}
