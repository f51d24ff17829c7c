// The scan: what the table is made of.
ghost use Rattle.std.specs.Prelude.{◌≡◌, List, ℕ, ◌*◌, ◌≤◌, length};
ghost use Rattle.page.specs.Record.{seen_of};
ghost use Rattle.records.specs.Records.{each_to};
ghost use Rattle.records.specs.Scanned.{scanned_of, listed};
ghost use Rattle.table.specs.Table.{sectors_of, whole_sectors, pages, frees, Holds};

use crate::{Page, Table};
use layout::{MOST_SECTORS, SECTOR_BYTES};
use records::Scanned;

// Whether the image is 2 to 16 whole sectors.
#[tactic(auto, unfolding(crate::specs::Table::whole_sectors))]
pub fn is_whole(image: &[u8]) -> bool
    ensures { result ≡ whole_sectors image.now }
{
    let sectors = image.len() / SECTOR_BYTES;
    image.len() % SECTOR_BYTES == 0 && 2 <= sectors && sectors <= MOST_SECTORS
}

// The lists of the sectors that were seen, whatever image they are of. What stands in the scan past its sectors counts for nothing.
pub fn list_seen(scanned: &Scanned) -> Table
    ensures whole { (l : List ℕ) → scanned.now ≡ scanned_of l (sectors_of l) → Holds result (pages l) (frees l) }
    ensures seen { (l : List ℕ) → listed scanned.now ≡ each_to seen_of l (sectors_of l) → Holds result (pages l) (frees l) }
{
    let mut table = Table {
        pages: [Page::default(); MOST_SECTORS],
        count: 0,
        free: [0; MOST_SECTORS],
        free_count: 0,
    };
    for (n, seen) in scanned.listed().iter().enumerate() {
        let sector = n as u8;
        if page::is_free(seen.state) {
            table.join_free(sector);
        } else {
            table.append_page(Page {
                sector,
                seen: *seen,
            });
        }
    }
    table
}

// The scan: it only reads.
pub fn scan(image: &[u8], sectors: usize) -> Table
    requires { (length image.now ≡ sectors * 4096) × (sectors ≤ 16) }
    ensures { Holds result (pages image.now) (frees image.now) }
{
    list_seen(&records::see_all(image, sectors))
}
