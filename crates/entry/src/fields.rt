// What the 32 bytes of an entry say, where they stand at `at` of a sector or an image.
ghost use Rattle.std.specs.Prelude.{◌≡◌, ◌+◌, ◌<◌, ◌≤◌, length, get_or, eqb, ltb};
ghost use Rattle.word.specs.Number.{part};
ghost use Rattle.entry.specs.Fields.{entry_crc, key_of, key_number, chunk_size, index_size, index_count, index_start, start_of};

// The sixteen bytes of a key as two numbers, first byte highest, so that keys are compared as numbers are.
#[derive(Clone, Copy, PartialEq, Eq, PartialOrd, Ord)]
pub struct Key {
    pub high: u64,
    pub low: u64,
}

// The CRC that the entry should have: bytes 4 to 7 hold it, so they are passed over.
pub fn entry_crc(s: &[u8], at: usize) -> u32
    requires { at + 32 ≤ length s.now }
    ensures { result ≡ entry_crc (part s.now at 32) }
{
    let r = crc::run(0, &s[at..at + 4]);
    crc::finish(crc::run(r, &s[at + 8..at + 32]))
}

pub fn key_at(s: &[u8], at: usize) -> Key
    requires { at + 32 ≤ length s.now }
    ensures { result ≡ key_of (part s.now at 32) }
{
    Key {
        high: word::be64(s, at + 8),
        low: word::be64(s, at + 16),
    }
}

// `a < b` and `a == b`, with what they answer as a promise: the laws of the two ask that both keys' halves fit.
pub fn key_less(a: Key, b: Key) -> bool
    ensures { result ≡ ltb (key_number a) (key_number b) }
{
    a < b
}

pub fn key_same(a: Key, b: Key) -> bool
    ensures { result ≡ eqb (key_number a) (key_number b) }
{
    a == b
}

// A chunk's size.
pub fn chunk_size(s: &[u8], at: usize) -> u32
    requires { at + 32 ≤ length s.now }
    ensures { (result ≡ chunk_size (part s.now at 32)) × (result < 65536) }
{
    word::le16(s, at + 24)
}

// A blob index's size.
pub fn index_size(s: &[u8], at: usize) -> u32
    requires { at + 32 ≤ length s.now }
    ensures { result ≡ index_size (part s.now at 32) }
{
    word::le32(s, at + 24)
}

// A blob index's chunk count.
pub fn index_count(s: &[u8], at: usize) -> u8
    requires { at + 32 ≤ length s.now }
    ensures { result ≡ index_count (part s.now at 32) }
{
    s[at + 28]
}

// A blob index's chunk start.
pub fn index_start(s: &[u8], at: usize) -> u8
    requires { at + 32 ≤ length s.now }
    ensures { result ≡ index_start (part s.now at 32) }
{
    s[at + 29]
}

// The start that a chunk start or a chunk index is judged by.
pub fn start(b: u8) -> u8
    ensures { result ≡ start_of b }
{
    if b < 0x80 { 0 } else { 0x80 }
}
