// Whether stages 3 and 4 have nothing to repair, in time linear in the items: a table leads from names to items, and each part of a blob is tested by it.
#![tactic(auto)]

ghost use Rattle.std.specs.Prelude.{◌≡◌, true, false, map, ◌≤◌, length};
ghost use Rattle.table.specs.Table.{listed};
ghost use Rattle.found.specs.Found.{found};
ghost use Rattle.found.specs.Places.{place_of, Lies};
ghost use Rattle.lists.specs.Each.{Each};
ghost use Rattle.records.specs.Notes.{Noted};
ghost use Rattle.quick.specs.Calm.{Calm, tot};
ghost use Rattle.slots.specs.Slots.{Leads};
ghost use Rattle.slots.specs.Named.{Named, Stopped};
ghost use Rattle.quick.specs.Crowded.{Crowded};

use layout::PAGE_ENTRIES;
use table::Table;

// Fills the table page by page, so that a list of one page's places is enough, and notes what each walk counted. Says whether no two judged items have the
// same name, and none is crowded out.
fn fill_all(image: &[u8], table: &Table, slots: &mut [u16], notes: &mut [u16]) -> bool
    requires { Each (Lies image.now) (listed table.now) × (4096 ≤ length slots.old) × Noted notes.old image.now }
    ensures { (result ≡ true → Leads slots.new image.now × Named slots.new image.now (map place_of (found (listed table.now) image.now))) × (result ≡ false → Stopped slots.new image.now (map place_of (found (listed table.now) image.now))) × Noted notes.new image.now }
{
    slots::clear(slots);
    let mut places = [0u16; PAGE_ENTRIES];
    for p in table.listed().iter() {
        let k = gathering::gather_page(image, *p, &mut places, 0, notes);
        if !slots::fill(image, &places[..k], slots) {
            return false;
        }
    }
    true
}

// True only where no step of the two stages is to be made; where it is false, the stages decide. Of calm items it says no only where one is crowded out: 64
// slots from that of its name on hold items of other names. `slots` is overwritten, and `notes` by what was counted of the pages that were walked.
pub fn is_calm(image: &[u8], table: &Table, slots: &mut [u16], notes: &mut [u16]) -> bool
    requires { Each (Lies image.now) (listed table.now) × (4096 ≤ length slots.old) × (16 ≤ length notes.old) }
    ensures { (result ≡ true → Calm (λ f. tot f (found (listed table.now) image.now))) × (result ≡ false → Calm (λ f. tot f (found (listed table.now) image.now)) → Crowded slots.new image.now (map place_of (found (listed table.now) image.now))) × Noted notes.new image.now }
{
    slots::clear(notes);
    fill_all(image, table, slots, notes) && fits::all_fit(image, slots)
}
