// The state of a sector.
ghost use Rattle.std.specs.Prelude.{◌≡◌, ◌&&◌, ◌+◌, ◌≤◌, length, drop};
ghost use Rattle.word.specs.Number.{part};
ghost use Rattle.page.specs.State.{all_ones, word_state, state_of, is_free};

use layout::{ENTRY_BYTES, SECTOR_PLACES};

// A version byte is this or 0xFF.
const LEAST_VERSION: u8 = 0xFE;

#[derive(Clone, Copy, Default, PartialEq, Eq)]
pub enum PageState {
    #[default]
    Blank,
    Corrupt,
    Active,
    Full,
    Freeing,
}

// Whether the 32 bytes from `at` on are 0xFF: four groups of eight, up to the first that differs.
fn are_ones(s: &[u8], at: usize) -> bool
    requires { at + 32 ≤ length s.now }
    ensures { all_ones (drop at s.now) ≡ result && all_ones (drop (at + 32) s.now) }
{
    word::le64(s, at) == u64::MAX
        && word::le64(s, at + 8) == u64::MAX
        && word::le64(s, at + 16) == u64::MAX
        && word::le64(s, at + 24) == u64::MAX
}

// Whether every byte of a sector is 0xFF. A Blank sector is read to its end, so a turn takes four groups: one at a time takes nearly twice as long.
pub fn all_ones(s: &[u8]) -> bool
    requires { length s.now ≡ 4096 }
    ensures { result ≡ all_ones s.now }
{
    for p in 0..SECTOR_PLACES {
        if !are_ones(s, p * ENTRY_BYTES) {
            return false;
        }
    }
    true
}

// The state that the state word of the sector stands for.
fn state_of_word(s: &[u8]) -> PageState
    requires { 4 ≤ length s.now }
    ensures { result ≡ word_state (part s.now 0 4) }
{
    match word::le32(s, 0) {
        0xFFFF_FFFE => PageState::Active,
        0xFFFF_FFFC => PageState::Full,
        0xFFFF_FFF8 => PageState::Freeing,
        _ => PageState::Corrupt,
    }
}

// The state of the sector `s`. A used sector fails the test for Blank at its first byte, so the test comes first.
pub fn page_state(s: &[u8]) -> PageState
    requires { length s.now ≡ 4096 }
    ensures { result ≡ state_of s.now }
{
    if all_ones(s) {
        PageState::Blank
    } else if s[8] >= LEAST_VERSION && word::le32(s, 28) == crc::crc(&s[4..28]) {
        state_of_word(s)
    } else {
        PageState::Corrupt
    }
}

pub fn is_free(state: PageState) -> bool
    ensures { result ≡ is_free state }
{
    matches!(state, PageState::Blank | PageState::Corrupt)
}
