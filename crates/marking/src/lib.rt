// The entry states of a span, in the sector at `base`: `n` entries from entry `j` on, one a step. The header's state decides whether the item is
// there, so it is the first to be set Written and the last to be set Erased.
#![tactic(auto)]

ghost use Rattle.std.specs.Prelude.{◌≡◌, [], ◌∷◌, ◌+◌, ◌*◌, ◌%◌, ◌^◌, ◌≤◌, ◌<◌, length};
ghost use Rattle.flash.specs.Did.{Did};
ghost use Rattle.marking.specs.Marking.{state_step, marking, unmarking};

use flash::Ran;
use layout::STATES_AT;

// The entries whose states a word holds.
const WORD_ENTRIES: usize = 16;

// Programs the state of entry `e`, and no other's: `d` is taken off its two bits.
fn state_step(image: &mut [u8], base: usize, d: u32, e: usize, left: u64) -> Ran
    requires { (base + 4096 ≤ length image.old) × (d ≤ 3) × (e < 126) }
    ensures { Did (state_step base d e ∷ []) left image.old image.new result }
{
    let at = base + STATES_AT + e / WORD_ENTRIES * 4;
    let word = 0xFFFF_FFFF - (d << (2 * (e % WORD_ENTRIES)));
    flash::program_word(image, at, word.to_le_bytes(), left)
}

// Sets the span Written, and the next function Erased: the one ascends and the other descends, so a function of both would be as long as the two loops.
pub fn mark_written(image: &mut [u8], base: usize, j: usize, n: usize, allowed: u64) -> Ran
    requires { (base + 4096 ≤ length image.old) × (j + n ≤ 126) }
    ensures { Did (marking base j n) allowed image.old image.new result }
{
    let mut left = allowed;
    for e in j..j + n {
        left = state_step(image, base, 1, e, left)?;
    }
    Ok(left)
}

// Sets the span Erased.
pub fn mark_erased(image: &mut [u8], base: usize, j: usize, n: usize, allowed: u64) -> Ran
    requires { (base + 4096 ≤ length image.old) × (j + n ≤ 126) }
    ensures { Did (unmarking base j n) allowed image.old image.new result }
{
    let mut left = allowed;
    for e in (j..j + n).rev() {
        left = state_step(image, base, 3, e, left)?;
    }
    Ok(left)
}
