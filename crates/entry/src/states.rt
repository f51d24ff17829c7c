// Entry states: two bits an entry, and how many entries have each state.
ghost use Rattle.std.specs.Prelude.{◌≡◌, ◌+◌, ◌<◌, ◌≤◌, length, slice_index};
ghost use Rattle.entry.specs.States.{state_at, totals_of};
ghost use Rattle.entry.specs.Ones.{masked, state_code};

use layout::STATES_AT;

// In the order of the two bits.
#[derive(Clone, Copy, PartialEq, Eq)]
pub enum EntryState {
    Erased,
    Illegal,
    Written,
    Empty,
}

// The state of entry `i` of the sector.
#[tactic(auto, unfolding(crate::specs::States::state_at))]
pub fn entry_state(s: &[u8], i: usize) -> EntryState
    requires { (64 ≤ length s.now) × (i < 126) }
    ensures { state_code result ≡ state_at s.now i }
{
    match (s[STATES_AT + i / 4] >> (2 * (i % 4))) % 4 {
        0 => EntryState::Erased,
        1 => EntryState::Illegal,
        2 => EntryState::Written,
        _ => EntryState::Empty,
    }
}

// How many pairs of `w`, at the places of `mask`, are 11 once the word is flipped.
fn hits(w: u64, flip: u64, mask: u64) -> u32
    ensures { (result ≡ masked w flip mask) × (result ≤ 64) }
{
    let x = w ^ flip;
    u64::count_ones((x & (x >> 1)) & mask)
}

// Where a word has pairs; and the last of a page's four, of which the two pairs past entry 125 never count.
const PAIRS: u64 = 0x5555_5555_5555_5555;

const LAST_PAIRS: u64 = 0x0555_5555_5555_5555;

// The same in the four words of a page. (As a sum over an iterator it did not prove: that the sum fits stayed open, as the closure's result has no bound there.)
fn tally(words: [u64; 4], flip: u64) -> u32
    ensures { result ≡ masked (slice_index words 0) flip PAIRS + masked (slice_index words 1) flip PAIRS + masked (slice_index words 2) flip PAIRS + masked (slice_index words 3) flip LAST_PAIRS }
{
    let [a, b, c, d] = words;
    hits(a, flip, PAIRS) + hits(b, flip, PAIRS) + hits(c, flip, PAIRS) + hits(d, flip, LAST_PAIRS)
}

#[derive(Clone, Copy)]
pub struct Totals {
    pub written: u8,
    pub erased: u8,
    pub empty: u8,
    pub illegal: u8,
}

// How many of the 126 entries of the sector have each state. A state's pair is flipped to 11, so that one mask serves all four.
pub fn totals_of(s: &[u8]) -> Totals
    requires { 64 ≤ length s.now }
    ensures { result ≡ totals_of s.now }
{
    let words = [
        word::le64(s, STATES_AT),
        word::le64(s, STATES_AT + 8),
        word::le64(s, STATES_AT + 16),
        word::le64(s, STATES_AT + 24),
    ];
    Totals {
        written: tally(words, 0x5555_5555_5555_5555) as u8,
        erased: tally(words, 0xFFFF_FFFF_FFFF_FFFF) as u8,
        empty: tally(words, 0) as u8,
        illegal: tally(words, 0xAAAA_AAAA_AAAA_AAAA) as u8,
    }
}
