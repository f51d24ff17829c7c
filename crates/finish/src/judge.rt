// What stage 2 asks of two pages: whether the items of one are all on the other. It only reads.
ghost use Rattle.std.specs.Prelude.{◌≡◌, Bool, List, ℕ, ◌+◌, ◌*◌, ◌≤◌, length};
ghost use Rattle.page.specs.Walk.{walk};
ghost use Rattle.table.specs.Table.{items_in};
ghost use Rattle.finish.specs.Finish.{same_bytes, name_of};
ghost use Rattle.finish.specs.Alike.{alike_by, some_item, some_like, all_like};

use layout::{ENTRIES_AT, ENTRY_BYTES, PAGE_ENTRIES, SECTOR_BYTES};

// By what two items are compared: all 32 bytes of the header, or namespace, chunk index and key. An enum and no closure, as the contracts name it.
#[derive(Clone, Copy)]
pub enum Alike {
    Header,
    Name,
}

fn same_name(a: &[u8], b: &[u8]) -> bool
    requires { (length a.now ≡ 32) × (length b.now ≡ 32) }
    ensures { result ≡ same_bytes (name_of a.now) (name_of b.now) }
{
    a[0] == b[0] && a[3] == b[3] && a[8..24] == b[8..24]
}

fn are_alike(by: Alike, a: &[u8], b: &[u8]) -> bool
    requires { (length a.now ≡ 32) × (length b.now ≡ 32) }
    ensures { result ≡ alike_by by a.now b.now }
{
    match by {
        Alike::Header => a == b,
        Alike::Name => same_name(a, b),
    }
}

// Whether an item of the sector passes the test of its header. The step is data, the item's span, so this is no `for`.
fn any_item<F: Fn(&[u8]) -> bool>(s: &[u8], test: F) -> bool
    requires whole { length s.now ≡ 4096 }
    requires callable { (h : _) → length h.now ≡ 32 → F.pre test h }
    ensures { (p : List ℕ → Bool) → ((h : _) (b : Bool) → length h.now ≡ 32 → F.post test h b → b ≡ p h.now) → result ≡ some_item p (walk s.now 126 0) }
{
    let mut i: usize = 0;
    while i < PAGE_ENTRIES {
        let Some(item) = page::read_entry(s, i) else {
            i += 1;
            continue;
        };
        let a = ENTRIES_AT + i * ENTRY_BYTES;
        if test(&s[a..a + ENTRY_BYTES]) {
            return true;
        }
        i += item.span;
    }
    false
}

// Whether an item of the sector `s` is like the header `h`.
fn some_like(by: Alike, h: &[u8], s: &[u8]) -> bool
    requires { (length h.now ≡ 32) × (length s.now ≡ 4096) }
    ensures { result ≡ some_like by h.now (walk s.now 126 0) }
{
    any_item(s, |g| are_alike(by, h, g))
}

// Whether each item of the sector `x` is like some item of the sector `y`.
fn all_like(by: Alike, x: &[u8], y: &[u8]) -> bool
    requires { (length x.now ≡ 4096) × (length y.now ≡ 4096) }
    ensures { result ≡ all_like by (walk x.now 126 0) (walk y.now 126 0) }
{
    !any_item(x, |h| !some_like(by, h, y))
}

// Whether each item in sector `x` of the image is like some item in sector `y`.
pub fn matches(by: Alike, image: &[u8], x: usize, y: usize) -> bool
    requires { (x * 4096 + 4096 ≤ length image.now) × (y * 4096 + 4096 ≤ length image.now) }
    ensures { result ≡ all_like by (items_in x image.now) (items_in y image.now) }
{
    let a = x * SECTOR_BYTES;
    let b = y * SECTOR_BYTES;
    all_like(by, &image[a..a + SECTOR_BYTES], &image[b..b + SECTOR_BYTES])
}
