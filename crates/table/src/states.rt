// A page's state.
ghost use Rattle.std.specs.Prelude.{◌≡◌};
ghost use Rattle.table.specs.Table.{active, as_full};

use crate::Page;
use page::{PageState, Seen};

pub fn is_active(state: PageState) -> bool
    ensures { result ≡ active state }
{
    state == PageState::Active
}

// The same page, counting as Full.
pub fn as_full(p: Page) -> Page
    ensures { result ≡ as_full p }
{
    Page {
        seen: Seen {
            state: PageState::Full,
            ..p.seen
        },
        ..p
    }
}
