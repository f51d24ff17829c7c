// The item kind of a type byte.
ghost use Rattle.std.specs.Prelude.{◌≡◌};
ghost use Rattle.entry.specs.Kinds.{kind_of, known};

// A whole number's kind holds its width in bytes. Unknown is a kind too, since every type byte is judged.
#[derive(Clone, Copy)]
pub enum Kind {
    Unsigned(u8),
    Signed(u8),
    Text,
    Blob,
    Chunk,
    Index,
    Unknown,
}

#[tactic(auto, unfolding(crate::specs::Kinds::kind_of))]
pub fn kind_of(code: u8) -> Kind
    ensures { result ≡ kind_of code }
{
    match code {
        0x01 => Kind::Unsigned(1),
        0x02 => Kind::Unsigned(2),
        0x04 => Kind::Unsigned(4),
        0x08 => Kind::Unsigned(8),
        0x11 => Kind::Signed(1),
        0x12 => Kind::Signed(2),
        0x14 => Kind::Signed(4),
        0x18 => Kind::Signed(8),
        0x21 => Kind::Text,
        0x41 => Kind::Blob,
        0x42 => Kind::Chunk,
        0x48 => Kind::Index,
        0x00
        | 0x03
        | 0x05..=0x07
        | 0x09..=0x10
        | 0x13
        | 0x15..=0x17
        | 0x19..=0x20
        | 0x22..=0x40
        | 0x43..=0x47
        | 0x49..=0xFF => { Kind::Unknown }
    }
}

pub fn is_known(kind: Kind) -> bool
    ensures { result ≡ known kind }
{
    !matches!(kind, Kind::Unknown)
}
