// The page record of a sector.
ghost use Rattle.std.specs.Prelude.{◌≡◌};
ghost use Rattle.page.specs.Record.{with_unread};

use crate::seen::Seen;
use crate::state::PageState;

// What is told of a sector: the numbers are 0 where it is free. `unread` counts the Written entries that the walk reaches and that are no item; it stands beside
// the state, where a record is no larger for it.
#[derive(Clone, Copy, Default)]
pub struct PageRecord {
    pub state: PageState,
    pub unread: u8,
    pub sequence: u32,
    pub written: u8,
    pub erased: u8,
    pub empty: u8,
    pub illegal: u8,
}

// What the scan saw, and what a walk counted.
pub fn with_unread(seen: Seen, unread: u8) -> PageRecord
    ensures { result ≡ with_unread seen unread }
{
    let Seen {
        state,
        sequence,
        written,
        erased,
        empty,
        illegal,
    } = seen;
    PageRecord {
        state,
        unread,
        sequence,
        written,
        erased,
        empty,
        illegal,
    }
}
