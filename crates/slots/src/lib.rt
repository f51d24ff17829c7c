// A table of the judged items, by their names. A slot holds an item's place, which is never 0, so that 0 is a free slot: a slot stays one number of 16 bits, as
// the array of 4,096 numbers that holds the slots holds the places of the stages too (fixed memory).
#![tactic(auto)]

mod names;

ghost use Rattle.std.specs.Prelude.{◌≡◌, true, false, List, ◌++◌, ℕ, ◌≤◌, ◌<◌, get_or, unwrap_or, IfSome};
ghost use Rattle.found.specs.Places.{Placed};
ghost use Rattle.lists.specs.Each.{Each};
ghost use Rattle.found.specs.Ranks.{rank_number};
ghost use Rattle.slots.specs.Slots.{stop_of, told, Leads};
ghost use Rattle.slots.specs.Named.{Filled, Named, Stopped};

use found::Rank;
pub use names::chunk_name;
use names::{has_name, is_judged, name_at, slot_of};

// The slots: some two for each item that an image can hold. A name's hash is a slot.
pub const SLOTS: usize = 4096;

// How many slots a name is looked for in: images whose names crowd one place stay cheap.
const LOOKS: usize = 64;

pub fn clear(slots: &mut [u16])
    ensures { (i : ℕ) → get_or slots.new i 0 ≡ 0 }
{
    slots.fill(0);
}

// The slot at which the search for a name ends: that of the item that has it, or the first free one. None where none of 64 slots is either.
fn stop_of(image: &[u8], slots: &[u16], name: Rank) -> Option<usize>
    requires { Leads slots.now image.now }
    ensures { (result ≡ stop_of slots.now image.now (rank_number name)) × IfSome result (λ i. i < 4096) }
{
    // The slot is carried: computed from a counter, as (first + n) % SLOTS, it took a clean recovery up to 11 percent longer.
    let mut i = slot_of(name);
    for _ in 0..LOOKS {
        let place = usize::from(slots[i]);
        if place == 0 || has_name(image, place, name) {
            return Some(i);
        }
        i = (i + 1) % SLOTS;
    }
    None
}

// The place of the item to which the table leads from a name.
#[tactic(auto, using(crate::proofs::Looking::told_none))]
pub fn find(image: &[u8], slots: &[u16], name: Rank) -> Option<usize>
    requires { Leads slots.now image.now }
    ensures { (unwrap_or result 0 ≡ told slots.now image.now (rank_number name)) × IfSome result (Placed image.now) }
{
    let i = stop_of(image, slots, name)?;
    let place = usize::from(slots[i]);
    (place != 0).then_some(place)
}

// Puts each judged item into the table. Says whether none has a name that is there already, or finds no slot: the table then leads from each one's name to it.
pub fn fill(image: &[u8], places: &[u16], slots: &mut [u16]) -> bool
    requires { Each (Placed image.now) places.now × Leads slots.old image.now }
    ensures { (result ≡ true → Filled slots.old slots.new image.now places.now) × (result ≡ false → (xs : List ℕ) → Named slots.old image.now xs → Stopped slots.new image.now (xs ++ places.now)) }
{
    for &item in places {
        let place = usize::from(item);
        if !is_judged(image, place) {
            continue;
        }
        let Some(free) = stop_of(image, slots, name_at(image, place)) else {
            return false;
        };
        if slots[free] != 0 {
            return false;
        }
        slots[free] = item;
    }
    true
}
