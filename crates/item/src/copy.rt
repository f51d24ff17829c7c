// Copy an item into the next entries of another sector. Its states are marked once all its bytes stand: payload is never read as a header.
ghost use Rattle.std.specs.Prelude.{◌≡◌, ◌⊎◌, ◌+◌, ◌*◌, ◌≤◌, length};
ghost use Rattle.word.specs.Number.{part};
ghost use Rattle.entry.specs.Fields.{span_of};
ghost use Rattle.flash.specs.Did.{Did};
ghost use Rattle.flash.specs.Words.{words};
ghost use Rattle.item.specs.Copy.{full_mark, copying};

use crate::marks::{FULL, mark_state};
use flash::Ran;
use layout::{ENTRIES_AT, ENTRY_BYTES, PAGE_ENTRIES, SECTOR_BYTES};
use marking::mark_written;

// Copies `n` words from `from` on to `to` on, ascending. The target sector's part from `to` up to its end `end` is lent to the function that programs a
// word; a word is read before the part is lent, and source and target do not meet.
fn copy_words(image: &mut [u8], from: usize, to: usize, end: usize, n: usize, allowed: u64) -> Ran
    requires { (from + n * 4 ≤ length image.old) × (to + n * 4 ≤ end) × (end ≤ length image.old) × ((from + n * 4 ≤ to) ⊎ (to + n * 4 ≤ from)) }
    ensures { Did (words to (part image.old from (n * 4)) 0 n) allowed image.old image.new result }
{
    let mut left = allowed;
    for k in 0..n {
        let a = from + k * 4;
        let word = [image[a], image[a + 1], image[a + 2], image[a + 3]];
        left = flash::program_word(&mut image[to..end], k * 4, word, left)?;
    }
    Ok(left)
}

// Marks the page at `base` Full, if `next` is past its last entry.
fn mark_if_used(image: &mut [u8], base: usize, next: usize, left: u64) -> Ran
    requires { base + 4096 ≤ length image.old }
    ensures { Did (full_mark base next) left image.old image.new result }
{
    if next == PAGE_ENTRIES {
        return mark_state(image, base, FULL, left);
    }
    Ok(left)
}

// Copies the item of `n` entries at entry `i` of the sector at `source` to entry `j` of the sector at `target`.
pub fn copy_item(
    image: &mut [u8],
    source: usize,
    i: usize,
    target: usize,
    j: usize,
    n: usize,
    allowed: u64,
) -> Ran
    requires { (source + 4096 ≤ length image.old) × (target + 4096 ≤ length image.old) × ((source + 4096 ≤ target) ⊎ (target + 4096 ≤ source)) × (i + n ≤ 126) × (j + n ≤ 126) × (span_of (part image.old (source + 64 + i * 32) (n * 32)) ≡ n) }
    ensures { Did (copying target j (part image.old (source + 64 + i * 32) (n * 32))) allowed image.old image.new result }
{
    let from = source + ENTRIES_AT + i * ENTRY_BYTES;
    let to = target + ENTRIES_AT + j * ENTRY_BYTES;
    let copied = copy_words(image, from, to, target + SECTOR_BYTES, n * 8, allowed)?;
    let marked = mark_written(image, target, j, n, copied)?;
    mark_if_used(image, target, j + n, marked)
}
