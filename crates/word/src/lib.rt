// Numbers from bytes.
#![tactic(auto)]

ghost use Rattle.std.specs.Prelude.{◌≡◌, ◌+◌, ◌<◌, ◌≤◌, length};
ghost use Rattle.word.specs.Number.{le, be};

// The two bytes at `at`, the lowest first.
#[tactic(auto, unfolding(crate::specs::Number::le))]
pub fn le16(s: &[u8], at: usize) -> u32
    requires { at + 2 ≤ length s.now }
    ensures { (result ≡ le s.now at 2) × (result < 65536) }
{
    u32::from(u16::from_le_bytes([s[at], s[at + 1]]))
}

// The four bytes at `at`, the lowest first.
#[tactic(auto, unfolding(crate::specs::Number::le))]
pub fn le32(s: &[u8], at: usize) -> u32
    requires { at + 4 ≤ length s.now }
    ensures { result ≡ le s.now at 4 }
{
    u32::from_le_bytes([s[at], s[at + 1], s[at + 2], s[at + 3]])
}

// The eight bytes at `at`, the lowest first.
#[tactic(auto, unfolding(crate::specs::Number::le))]
pub fn le64(s: &[u8], at: usize) -> u64
    requires { at + 8 ≤ length s.now }
    ensures { result ≡ le s.now at 8 }
{
    let b = &s[at..at + 8];
    u64::from_le_bytes([b[0], b[1], b[2], b[3], b[4], b[5], b[6], b[7]])
}

// The eight bytes at `at`, the first one highest.
#[tactic(auto, unfolding(crate::specs::Number::be))]
pub fn be64(s: &[u8], at: usize) -> u64
    requires { at + 8 ≤ length s.now }
    ensures { result ≡ be s.now at 8 }
{
    let b = &s[at..at + 8];
    u64::from_be_bytes([b[0], b[1], b[2], b[3], b[4], b[5], b[6], b[7]])
}
