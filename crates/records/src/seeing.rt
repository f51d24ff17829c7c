// The scan: what is seen of each sector of an image.
ghost use Rattle.std.specs.Prelude.{◌≡◌, ◌*◌, ◌≤◌, length};
ghost use Rattle.records.specs.Scanned.{blank_seen, scanned_of};

use crate::scanned::Scanned;
use layout::{MOST_SECTORS, SECTOR_BYTES};
use page::Seen;

fn blank_seen() -> Seen
    ensures { result ≡ blank_seen }
{
    Seen::default()
}

// Each sector once, in sector order.
pub fn see_all(image: &[u8], sectors: usize) -> Scanned
    requires { (length image.now ≡ sectors * 4096) × (sectors ≤ 16) }
    ensures { result ≡ scanned_of image.now sectors }
{
    let mut seen = [blank_seen(); MOST_SECTORS];
    for n in 0..sectors {
        let a = n * SECTOR_BYTES;
        seen[n] = page::see(&image[a..a + SECTOR_BYTES]);
    }
    Scanned {
        seen,
        count: sectors,
    }
}
