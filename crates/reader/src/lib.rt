// The item reader: it keeps a lent sector, its place on it and how many entries it has passed over unread. The walk itself is on a plain slice and numbers.
#![tactic(auto)]

ghost use Rattle.std.specs.Prelude.{◌≡◌};
ghost use Rattle.reading.specs.Reading.{read_on};
ghost use Rattle.reader.specs.Reader.{read_from, new_reader, read_next, moved_reader};

use reading::next_from;
pub use reading::{Handed, Read, begins_at, result};

#[derive(Clone, Copy)]
pub struct ItemReader<'a> {
    sector: &'a [u8],
    entry: usize,
    unread: u8,
}

impl<'a> ItemReader<'a> {
    // A reader at the place where the sector's items begin, with nothing passed yet. The sector is judged here, once for all its items.
    pub fn new(sector: &'a [u8]) -> ItemReader<'a>
        ensures { result ≡ new_reader sector.entry }
    {
        ItemReader {
            sector,
            entry: begins_at(sector),
            unread: 0,
        }
    }

    // The next item; the reader moves on. Past the last item it answers `End` with its count, each time it is asked.
    pub fn next(&mut self) -> Handed
        ensures { (result ≡ (read_next self.old).handed) × (self.new ≡ moved_reader self.old) }
    {
        let read = next_from(self.sector, self.entry, self.unread);
        self.entry = read.next;
        self.unread = read.unread;
        read.handed
    }
}

// The reader's `next` for callers with plain parameters: what it hands out at its place `entry` after `unread` entries passed over, and its place and count
// after that. The place is one that `begins_at` or an earlier read named; the count is 0 at first, then the earlier read's.
pub fn read_on(sector: &[u8], entry: usize, unread: u8) -> Read
    ensures { result ≡ read_on sector.now entry unread }
{
    next_from(sector, entry, unread)
}

// What is handed out at any place, which no answer need have named: the sector is judged in each call. A whole sector is read from entry 0 and count 0 on.
pub fn read_from(sector: &[u8], entry: usize, unread: u8) -> Read
    ensures { result ≡ read_from sector.now entry unread }
{
    let first = begins_at(sector);
    read_on(sector, entry.max(first), unread)
}
