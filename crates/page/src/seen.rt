// What the scan sees of a sector: no item is read.
ghost use Rattle.std.specs.Prelude.{◌≡◌, length};
ghost use Rattle.page.specs.Record.{free_seen, seen_of};

use crate::state::{PageState, is_free, page_state};
use entry::Totals;

// The numbers are 0 where the sector is free.
#[derive(Clone, Copy, Default)]
pub struct Seen {
    pub state: PageState,
    pub sequence: u32,
    pub written: u8,
    pub erased: u8,
    pub empty: u8,
    pub illegal: u8,
}

// What is seen of a free sector of this state.
pub fn free_seen(state: PageState) -> Seen
    ensures { result ≡ free_seen state }
{
    Seen {
        state,
        sequence: 0,
        written: 0,
        erased: 0,
        empty: 0,
        illegal: 0,
    }
}

pub fn see(s: &[u8]) -> Seen
    requires { length s.now ≡ 4096 }
    ensures { result ≡ seen_of s.now }
{
    let state = page_state(s);
    if is_free(state) {
        return free_seen(state);
    }
    let Totals {
        written,
        erased,
        empty,
        illegal,
    } = entry::totals_of(s);
    Seen {
        state,
        sequence: word::le32(s, 4),
        written,
        erased,
        empty,
        illegal,
    }
}
