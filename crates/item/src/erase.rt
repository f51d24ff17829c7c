// Erase an item.
ghost use Rattle.std.specs.Prelude.{◌+◌, ◌*◌, ◌≤◌, length};
ghost use Rattle.flash.specs.Did.{Did};
ghost use Rattle.item.specs.Erase.{erasing};

use flash::Ran;
use layout::SECTOR_BYTES;
use marking::mark_erased;

// Erases the `n` entries from entry `i` on of sector `s`.
pub fn erase_item(image: &mut [u8], s: usize, i: usize, n: usize, allowed: u64) -> Ran
    requires { (s * 4096 + 4096 ≤ length image.old) × (i + n ≤ 126) }
    ensures { Did (erasing s i n) allowed image.old image.new result }
{
    mark_erased(image, s * SECTOR_BYTES, i, n, allowed)
}
