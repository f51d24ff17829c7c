// The CRC of document 01 by a table, four bytes a turn.
//
// The table is a static: a constant array that is indexed where it stands is stored to the stack at every use.
#![tactic(auto)]

ghost use Rattle.std.specs.Prelude.{◌≡◌, ◌+◌, ◌*◌, ◌≤◌, length, take};
ghost use Rattle.word.specs.Number.{part};
ghost use Rattle.crc.specs.Crc.{crc_bits, crc_from, crc_of, complement};
ghost use Rattle.crc.specs.Table.{crc_table};

// Five parts of 64 numbers and one of four: a part for each six bits of a register.
pub type CrcTable = [u32; 324];

static TABLE: CrcTable = [
    0x00000000, 0xB8BC6765, 0xAA09C88B, 0x12B5AFEE, 0x8F629757, 0x37DEF032, 0x256B5FDC, 0x9DD738B9,
    0xC5B428EF, 0x7D084F8A, 0x6FBDE064, 0xD7018701, 0x4AD6BFB8, 0xF26AD8DD, 0xE0DF7733, 0x58631056,
    0x5019579F, 0xE8A530FA, 0xFA109F14, 0x42ACF871, 0xDF7BC0C8, 0x67C7A7AD, 0x75720843, 0xCDCE6F26,
    0x95AD7F70, 0x2D111815, 0x3FA4B7FB, 0x8718D09E, 0x1ACFE827, 0xA2738F42, 0xB0C620AC, 0x087A47C9,
    0xA032AF3E, 0x188EC85B, 0x0A3B67B5, 0xB28700D0, 0x2F503869, 0x97EC5F0C, 0x8559F0E2, 0x3DE59787,
    0x658687D1, 0xDD3AE0B4, 0xCF8F4F5A, 0x7733283F, 0xEAE41086, 0x525877E3, 0x40EDD80D, 0xF851BF68,
    0xF02BF8A1, 0x48979FC4, 0x5A22302A, 0xE29E574F, 0x7F496FF6, 0xC7F50893, 0xD540A77D, 0x6DFCC018,
    0x359FD04E, 0x8D23B72B, 0x9F9618C5, 0x272A7FA0, 0xBAFD4719, 0x0241207C, 0x10F48F92, 0xA848E8F7,
    0x00000000, 0x9B14583D, 0xED59B63B, 0x764DEE06, 0x01C26A37, 0x9AD6320A, 0xEC9BDC0C, 0x778F8431,
    0x0384D46E, 0x98908C53, 0xEEDD6255, 0x75C93A68, 0x0246BE59, 0x9952E664, 0xEF1F0862, 0x740B505F,
    0x0709A8DC, 0x9C1DF0E1, 0xEA501EE7, 0x714446DA, 0x06CBC2EB, 0x9DDF9AD6, 0xEB9274D0, 0x70862CED,
    0x048D7CB2, 0x9F99248F, 0xE9D4CA89, 0x72C092B4, 0x054F1685, 0x9E5B4EB8, 0xE816A0BE, 0x7302F883,
    0x0E1351B8, 0x95070985, 0xE34AE783, 0x785EBFBE, 0x0FD13B8F, 0x94C563B2, 0xE2888DB4, 0x799CD589,
    0x0D9785D6, 0x9683DDEB, 0xE0CE33ED, 0x7BDA6BD0, 0x0C55EFE1, 0x9741B7DC, 0xE10C59DA, 0x7A1801E7,
    0x091AF964, 0x920EA159, 0xE4434F5F, 0x7F571762, 0x08D89353, 0x93CCCB6E, 0xE5812568, 0x7E957D55,
    0x0A9E2D0A, 0x918A7537, 0xE7C79B31, 0x7CD3C30C, 0x0B5C473D, 0x90481F00, 0xE605F106, 0x7D11A93B,
    0x00000000, 0x1C26A370, 0x384D46E0, 0x246BE590, 0x709A8DC0, 0x6CBC2EB0, 0x48D7CB20, 0x54F16850,
    0xE1351B80, 0xFD13B8F0, 0xD9785D60, 0xC55EFE10, 0x91AF9640, 0x8D893530, 0xA9E2D0A0, 0xB5C473D0,
    0x191B3141, 0x053D9231, 0x215677A1, 0x3D70D4D1, 0x6981BC81, 0x75A71FF1, 0x51CCFA61, 0x4DEA5911,
    0xF82E2AC1, 0xE40889B1, 0xC0636C21, 0xDC45CF51, 0x88B4A701, 0x94920471, 0xB0F9E1E1, 0xACDF4291,
    0x32366282, 0x2E10C1F2, 0x0A7B2462, 0x165D8712, 0x42ACEF42, 0x5E8A4C32, 0x7AE1A9A2, 0x66C70AD2,
    0xD3037902, 0xCF25DA72, 0xEB4E3FE2, 0xF7689C92, 0xA399F4C2, 0xBFBF57B2, 0x9BD4B222, 0x87F21152,
    0x2B2D53C3, 0x370BF0B3, 0x13601523, 0x0F46B653, 0x5BB7DE03, 0x47917D73, 0x63FA98E3, 0x7FDC3B93,
    0xCA184843, 0xD63EEB33, 0xF2550EA3, 0xEE73ADD3, 0xBA82C583, 0xA6A466F3, 0x82CF8363, 0x9EE92013,
    0x00000000, 0x646CC504, 0xC8D98A08, 0xACB54F0C, 0x4AC21251, 0x2EAED755, 0x821B9859, 0xE6775D5D,
    0x958424A2, 0xF1E8E1A6, 0x5D5DAEAA, 0x39316BAE, 0xDF4636F3, 0xBB2AF3F7, 0x179FBCFB, 0x73F379FF,
    0xF0794F05, 0x94158A01, 0x38A0C50D, 0x5CCC0009, 0xBABB5D54, 0xDED79850, 0x7262D75C, 0x160E1258,
    0x65FD6BA7, 0x0191AEA3, 0xAD24E1AF, 0xC94824AB, 0x2F3F79F6, 0x4B53BCF2, 0xE7E6F3FE, 0x838A36FA,
    0x3B83984B, 0x5FEF5D4F, 0xF35A1243, 0x9736D747, 0x71418A1A, 0x152D4F1E, 0xB9980012, 0xDDF4C516,
    0xAE07BCE9, 0xCA6B79ED, 0x66DE36E1, 0x02B2F3E5, 0xE4C5AEB8, 0x80A96BBC, 0x2C1C24B0, 0x4870E1B4,
    0xCBFAD74E, 0xAF96124A, 0x03235D46, 0x674F9842, 0x8138C51F, 0xE554001B, 0x49E14F17, 0x2D8D8A13,
    0x5E7EF3EC, 0x3A1236E8, 0x96A779E4, 0xF2CBBCE0, 0x14BCE1BD, 0x70D024B9, 0xDC656BB5, 0xB809AEB1,
    0x00000000, 0x77073096, 0xEE0E612C, 0x990951BA, 0x076DC419, 0x706AF48F, 0xE963A535, 0x9E6495A3,
    0x0EDB8832, 0x79DCB8A4, 0xE0D5E91E, 0x97D2D988, 0x09B64C2B, 0x7EB17CBD, 0xE7B82D07, 0x90BF1D91,
    0x1DB71064, 0x6AB020F2, 0xF3B97148, 0x84BE41DE, 0x1ADAD47D, 0x6DDDE4EB, 0xF4D4B551, 0x83D385C7,
    0x136C9856, 0x646BA8C0, 0xFD62F97A, 0x8A65C9EC, 0x14015C4F, 0x63066CD9, 0xFA0F3D63, 0x8D080DF5,
    0x3B6E20C8, 0x4C69105E, 0xD56041E4, 0xA2677172, 0x3C03E4D1, 0x4B04D447, 0xD20D85FD, 0xA50AB56B,
    0x35B5A8FA, 0x42B2986C, 0xDBBBC9D6, 0xACBCF940, 0x32D86CE3, 0x45DF5C75, 0xDCD60DCF, 0xABD13D59,
    0x26D930AC, 0x51DE003A, 0xC8D75180, 0xBFD06116, 0x21B4F4B5, 0x56B3C423, 0xCFBA9599, 0xB8BDA50F,
    0x2802B89E, 0x5F058808, 0xC60CD9B2, 0xB10BE924, 0x2F6F7C87, 0x58684C11, 0xC1611DAB, 0xB6662D3D,
    0x00000000, 0x76DC4190, 0xEDB88320, 0x9B64C2B0,
];

// The table, for a caller that wants it whole; no function asks for it.
pub fn table() -> CrcTable
    ensures { result ≡ crc_table }
{
    TABLE
}

// Thirty-two bits of a register: six by six, each through its own part of the table.
fn four_bytes(x: u32) -> u32
    ensures { result ≡ crc_bits 32 x }
{
    let x1 = x / 64;
    let x2 = x1 / 64;
    let x3 = x2 / 64;
    let x4 = x3 / 64;
    let x5 = x4 / 64;
    TABLE[(x % 64) as usize]
        ^ (TABLE[(x1 % 64 + 64) as usize]
            ^ (TABLE[(x2 % 64 + 128) as usize]
                ^ (TABLE[(x3 % 64 + 192) as usize]
                    ^ (TABLE[(x4 % 64 + 256) as usize] ^ TABLE[(x5 + 320) as usize]))))
}

// Eight bits of a register, through the table's last two parts; the rest of it is only shifted.
fn one_byte(x: u32) -> u32
    ensures { result ≡ crc_bits 8 x }
{
    let x1 = x / 64;
    TABLE[(x % 64 + 256) as usize] ^ ((x1 / 4) ^ TABLE[(x1 % 4 + 320) as usize])
}

// The register after the first `n` words of `s`, begun at `from`.
fn first_words(from: u32, s: &[u8], n: usize) -> u32
    requires { 4 * n ≤ length s.now }
    ensures { result ≡ crc_from from (take (4 * n) s.now) }
{
    let mut r = from;
    for k in 0..n {
        r = four_bytes(r ^ word::le32(s, 4 * k));
    }
    r
}

// The register after the bytes of `s`, begun at `from`: its words, and then the bytes that are left. A CRC is taken piece by piece.
pub fn run(from: u32, s: &[u8]) -> u32
    ensures { result ≡ crc_from from s.now }
{
    let n = s.len() / 4;
    let mut r = first_words(from, s, n);
    for b in &s[4 * n..] {
        r = one_byte(r ^ u32::from(*b));
    }
    r
}

// The register after `n` words of `s` from `at` on, begun at `from`.
pub fn words(from: u32, s: &[u8], at: usize, n: usize) -> u32
    requires { at + 4 * n ≤ length s.now }
    ensures { result ≡ crc_from from (part s.now at (4 * n)) }
{
    run(from, &s[at..at + 4 * n])
}

// The CRC that a register stands for.
pub fn finish(r: u32) -> u32
    ensures { result ≡ complement r }
{
    !r
}

// The CRC of `s`.
pub fn crc(s: &[u8]) -> u32
    ensures { result ≡ crc_of s.now }
{
    finish(run(0, s))
}
