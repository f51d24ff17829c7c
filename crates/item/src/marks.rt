// Mark a page: its state word is programmed with a state that lies further on.
ghost use Rattle.std.specs.Prelude.{[], ◌∷◌, ◌+◌, ◌*◌, ◌≤◌, length};
ghost use Rattle.flash.specs.Did.{Did};
ghost use Rattle.item.specs.Mark.{page_state, mark_full, mark_freeing};

use flash::Ran;
use layout::SECTOR_BYTES;

// The first byte of the state word; its other bytes are ones.
pub(crate) const FULL: u8 = 0xFC;

const FREEING: u8 = 0xF8;

// Programs the state word of the page at `base`.
pub(crate) fn mark_state(image: &mut [u8], base: usize, state: u8, left: u64) -> Ran
    requires { base + 4096 ≤ length image.old }
    ensures { Did (page_state base state ∷ []) left image.old image.new result }
{
    flash::program_word(image, base, [state, 0xFF, 0xFF, 0xFF], left)
}

pub fn mark_full(image: &mut [u8], s: usize, left: u64) -> Ran
    requires { s * 4096 + 4096 ≤ length image.old }
    ensures { Did (mark_full s ∷ []) left image.old image.new result }
{
    mark_state(image, s * SECTOR_BYTES, FULL, left)
}

pub fn mark_freeing(image: &mut [u8], s: usize, left: u64) -> Ran
    requires { s * 4096 + 4096 ≤ length image.old }
    ensures { Did (mark_freeing s ∷ []) left image.old image.new result }
{
    mark_state(image, s * SECTOR_BYTES, FREEING, left)
}
