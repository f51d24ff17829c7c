// Move a page: its items are copied to a fresh sector, and only then is it erased. Wherever the steps are cut, one of the two has all the items.
#![tactic(auto)]

ghost use Rattle.std.specs.Prelude.{◌≡◌, ◌+◌, ◌*◌, ◌≤◌, length};
ghost use Rattle.page.specs.Walk.{walk};
ghost use Rattle.flash.specs.Step.{sector};
ghost use Rattle.flash.specs.Did.{Did};
ghost use Rattle.relocate.specs.Move.{copies, moving};

use flash::Ran;
use layout::{PAGE_ENTRIES, SECTOR_BYTES};

// Copies the items of sector `s` in walk order into sector `target`, from its first entry on.
fn copy_items(image: &mut [u8], s: usize, target: usize, allowed: u64) -> Ran
    requires { (s * 4096 + 4096 ≤ length image.old) × (target * 4096 + 4096 ≤ length image.old) × (s ≡ target → ⊥) }
    ensures { Did (copies (target * 4096) 0 (walk (sector s image.old) 126 0)) allowed image.old image.new result }
{
    let a = s * SECTOR_BYTES;
    let mut left = allowed;
    let mut i = 0;
    let mut j = 0;
    // no index is counted: the walk goes on by the item's span, or by one
    while i < PAGE_ENTRIES {
        let Some(header) = page::read_entry(&image[a..a + SECTOR_BYTES], i) else {
            i += 1;
            continue;
        };
        left = item::copy_item(image, a, i, target * SECTOR_BYTES, j, header.span, left)?;
        i += header.span;
        j += header.span;
    }
    Ok(left)
}

// Moves the page in sector `s` to the sector `target`, which becomes a page with sequence `q`.
pub fn move_page(image: &mut [u8], s: usize, target: usize, q: u32, allowed: u64) -> Ran
    requires { (s * 4096 + 4096 ≤ length image.old) × (target * 4096 + 4096 ≤ length image.old) × (s ≡ target → ⊥) }
    ensures { Did (moving s target q (walk (sector s image.old) 126 0) image.old) allowed image.old image.new result }
{
    let h = item::header_of(q);
    let started = item::initialise(image, target, &h, allowed)?;
    let copied = copy_items(image, s, target, started)?;
    flash::erase_sector(image, s, copied)
}
