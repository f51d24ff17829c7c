// The page table: what the scan finds, by value.
#![tactic(auto)]

mod scans;
mod states;

ghost use Rattle.std.specs.Prelude.{◌≡◌, ◌≤◌, ◌<◌, length};

use layout::MOST_SECTORS;
use page::{PageState, Seen};
pub use scans::{is_whole, list_seen, scan};
pub use states::{as_full, is_active};

// A page of the list: its sector, and what the scan saw of it.
#[derive(Clone, Copy, Default)]
pub struct Page {
    pub sector: u8,
    pub seen: Seen,
}

// The page list and the free list of an image of at most 16 sectors: the first `count` pages, and the first `free_count` sectors. That these are sectors of the
// image at hand is said in the contracts: the calls change it.
#[derive(Clone, Copy)]
pub struct Table {
    pub pages: [Page; MOST_SECTORS],
    pub count: usize,
    pub free: [u8; MOST_SECTORS],
    pub free_count: usize,
    ghost sixteen: { (length pages ≡ 16) × (count ≤ 16) },
    ghost sixteen_free: { (length free ≡ 16) × (free_count ≤ 16) },
}

impl Table {
    ghost use mathlib.Core.List.{[], ◌∷◌, ◌++◌, drop_last};
    ghost use Rattle.lists.specs.Lists.{greatest, some_of, first_of, take_out};
    ghost use Rattle.table.specs.Table.{sequence, active_page, in_sector, listed, freed, Holds};
    ghost use Rattle.table.specs.Sought.{sought_of, in_state};

    // The page list.
    pub fn listed(&self) -> &[Page]
        ensures { result.now ≡ listed self.now }
    {
        &self.pages[..self.count]
    }

    // The free list.
    pub fn freed(&self) -> &[u8]
        ensures { result.now ≡ freed self.now }
    {
        &self.free[..self.free_count]
    }

    // The greatest sequence of the list, 0 where there is no page.
    pub fn greatest_sequence(&self) -> u32
        ensures { result ≡ greatest sequence (listed self.now) }
    {
        self.listed()
            .iter()
            .fold(0, |g: u32, p| g.max(p.seen.sequence))
    }

    // Whether a page of the list is Active.
    pub fn any_active(&self) -> bool
        ensures { result ≡ some_of active_page (listed self.now) }
    {
        self.listed().iter().any(|p| is_active(p.seen.state))
    }

    // The first page of the list in the state `wanted`.
    pub fn first_in(&self, wanted: PageState) -> Option<Page>
        ensures { result ≡ sought_of (first_of (in_state wanted) (listed self.now)) }
    {
        self.listed()
            .iter()
            .find(|p| p.seen.state == wanted)
            .copied()
    }

    // Takes out the first page in `sector`: the last of the list takes its place. (The last goes where no page is there: the definition says it so.)
    pub fn take_out(&mut self, sector: u8)
        ensures { Holds self.new (take_out (in_sector sector) (listed self.old)) (freed self.old) }
    {
        if self.count == 0 {
            return;
        }
        self.count -= 1;
        let last = self.pages[self.count];
        if last.sector != sector {
            if let Some(i) = self.listed().iter().position(|p| p.sector == sector) {
                self.pages[i] = last;
            }
        }
    }

    // A page more at the end of the list.
    pub fn append_page(&mut self, p: Page)
        requires { length (listed self.old) < 16 }
        ensures { Holds self.new (listed self.old ++ (p ∷ [])) (freed self.old) }
    {
        self.pages[self.count] = p;
        self.count += 1;
    }

    // A page more at the front of the list: each page moves on by one place.
    pub fn prepend_page(&mut self, p: Page)
        requires { length (listed self.old) < 16 }
        ensures { Holds self.new (p ∷ listed self.old) (freed self.old) }
    {
        // by way of a copy: within one slice it would want the C library's memmove
        let before = self.pages;
        self.pages[1..self.count + 1].copy_from_slice(&before[..self.count]);
        self.pages[0] = p;
        self.count += 1;
    }

    // A sector more at the end of the free list.
    pub fn join_free(&mut self, sector: u8)
        requires { length (freed self.old) < 16 }
        ensures { Holds self.new (listed self.old) (freed self.old ++ (sector ∷ [])) }
    {
        self.free[self.free_count] = sector;
        self.free_count += 1;
    }

    // The free list loses its last sector. (What is promised besides is that there is room then.)
    pub fn drop_free(&mut self)
        requires { 0 < length (freed self.old) }
        ensures { Holds self.new (listed self.old) (drop_last (freed self.old)) × (length (freed self.new) < 16) }
    {
        self.free_count -= 1;
    }
}
