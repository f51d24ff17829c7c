// Places gathered once, so that a stage walks the image once.
#![tactic(auto)]

ghost use Rattle.std.specs.Prelude.{◌≡◌, ◌++◌, map, ◌+◌, ◌≤◌, length, take};
ghost use Rattle.records.specs.Notes.{Noted};
ghost use Rattle.table.specs.Table.{listed};
ghost use Rattle.lists.specs.Each.{Each};
ghost use Rattle.found.specs.Found.{found, found_on};
ghost use Rattle.found.specs.Places.{place_of, Lies, most_items};

use layout::{FIRST_PLACE, SECTOR_BYTES, SECTOR_PLACES};
use table::{Page, Table};

// The places of the items found on a page, in entry order, into `out` from `from` on, and what the walk counted into `notes`. Answers where the places end.
pub fn gather_page(image: &[u8], p: Page, out: &mut [u16], from: usize, notes: &mut [u16]) -> usize
    requires { Lies image.now p × (from + 126 ≤ length out.old) × Noted notes.old image.now }
    ensures { (take result out.new ≡ take from out.old ++ map place_of (found_on image.now p)) × (result ≤ from + 126) × Noted notes.new image.now }
{
    let sector = usize::from(p.sector);
    let a = sector * SECTOR_BYTES;
    let base = sector * SECTOR_PLACES + FIRST_PLACE;
    let walked = walking::places(&image[a..a + SECTOR_BYTES], base, out, from);
    notes[sector] = u16::from(walked.unread) + 1;
    walked.end
}

// The places of all items found, in list order, then entry order, into `out`, and what each walk counted into `notes`. Answers how many places.
pub fn gather(image: &[u8], table: &Table, out: &mut [u16], notes: &mut [u16]) -> usize
    requires { Each (Lies image.now) (listed table.now) × (most_items ≤ length out.old) × Noted notes.old image.now }
    ensures { (take result out.new ≡ map place_of (found (listed table.now) image.now)) × (result ≤ most_items) × Noted notes.new image.now }
{
    let mut k: usize = 0;
    for p in table.listed().iter() {
        k = gather_page(image, *p, out, k, notes);
    }
    k
}
