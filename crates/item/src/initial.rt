// Initialise a sector. The state word comes last: a sector that is cut short before it is no page.
ghost use Rattle.std.specs.Prelude.{◌≡◌, ◌+◌, ◌*◌, ◌≤◌, length};
ghost use Rattle.flash.specs.Did.{Did};
ghost use Rattle.item.specs.Initialise.{clearing, header, initialising};

use flash::Ran;
use layout::{HEADER_BYTES, SECTOR_BYTES};

// Erases sector `s`, unless it is Blank.
pub fn clear_sector(image: &mut [u8], s: usize, left: u64) -> Ran
    requires { s * 4096 + 4096 ≤ length image.old }
    ensures { Did (clearing s image.old) left image.old image.new result }
{
    let a = s * SECTOR_BYTES;
    if page::all_ones(&image[a..a + SECTOR_BYTES]) {
        return Ok(left);
    }
    flash::erase_sector(image, s, left)
}

// The header of an Active page with sequence `q`.
pub fn header_of(q: u32) -> [u8; HEADER_BYTES]
    ensures { result ≡ header q }
{
    let mut h = [0xFFu8; HEADER_BYTES];
    h[0] = 0xFE;
    h[4..8].copy_from_slice(&q.to_le_bytes());
    h[8] = 0xFE;
    let c = crc::crc(&h[4..28]);
    h[28..32].copy_from_slice(&c.to_le_bytes());
    h
}

// Initialises sector `s` with the header `h`.
pub fn initialise(image: &mut [u8], s: usize, h: &[u8], allowed: u64) -> Ran
    requires { (s * 4096 + 4096 ≤ length image.old) × (length h.now ≡ 32) }
    ensures { Did (initialising s h.now image.old) allowed image.old image.new result }
{
    let a = s * SECTOR_BYTES;
    let cleared = clear_sector(image, s, allowed)?;
    let rest = flash::program_words(image, a, h, 1, 8, cleared)?;
    flash::program_words(image, a, h, 0, 1, rest)
}
