// The flash model: a word is programmed, a sector is erased, and each is a step that an allowance pays for.
#![tactic(auto)]

ghost use Rattle.std.specs.Prelude.{◌≡◌, [], ◌∷◌, ◌+◌, ◌-◌, ◌*◌, ◌≤◌, length, slice_index};
ghost use Rattle.flash.specs.Step.{program, erase, blank};
ghost use Rattle.flash.specs.Words.{words};
ghost use Rattle.flash.specs.Did.{Did};

use layout::SECTOR_BYTES;

// The allowance ended before the steps did.
#[derive(Clone, Copy)]
pub struct Stopped;

// What became of a list of steps: what is left of the allowance, so that the next list goes on with it.
pub type Ran = Result<u64, Stopped>;

// Programs the word at `at`: each of its bytes becomes its AND with that of `word`. Here and above image and allowance stand side by side: a struct of both
// would hold a `&mut`, and each contract would have to say that it is still the same one.
pub fn program_word(image: &mut [u8], at: usize, word: [u8; 4], left: u64) -> Ran
    requires { at + 4 ≤ length image.old }
    ensures { Did (program at (slice_index word 0) (slice_index word 1) (slice_index word 2) (slice_index word 3) ∷ []) left image.old image.new result }
{
    if left == 0 {
        return Err(Stopped);
    }
    for k in 0..4 {
        image[at + k] &= word[k];
    }
    Ok(left - 1)
}

// Erases sector `s`.
pub fn erase_sector(image: &mut [u8], s: usize, left: u64) -> Ran
    requires { s * 4096 + 4096 ≤ length image.old }
    ensures { Did (erase s ∷ []) left image.old image.new result }
{
    if left == 0 {
        return Err(Stopped);
    }
    let a = s * SECTOR_BYTES;
    image[a..a + SECTOR_BYTES].fill(0xFF);
    Ok(left - 1)
}

// Programs words `from` up to, not including, `to` of `e`, ascending, each at its place from `at` on.
pub fn program_words(
    part: &mut [u8],
    at: usize,
    e: &[u8],
    from: usize,
    to: usize,
    allowed: u64,
) -> Ran
    requires { (from ≤ to) × (at + to * 4 ≤ length part.old) × (to * 4 ≤ length e.now) }
    ensures { Did (words at e.now from (to - from)) allowed part.old part.new result }
{
    let mut left = allowed;
    for k in from..to {
        let i = k * 4;
        left = program_word(part, at + i, [e[i], e[i + 1], e[i + 2], e[i + 3]], left)?;
    }
    Ok(left)
}
