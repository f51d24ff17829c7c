// The numbers of the public flash layout that the code goes by. Contracts and definitions have them as document 01 writes them, in figures.
#![tactic(auto)]

// A sector: 4,096 bytes; an image has at most sixteen.
pub const SECTOR_BYTES: usize = 4096;

pub const MOST_SECTORS: usize = 16;

// A page: its header, the states of its entries, 126 entries.
pub const HEADER_BYTES: usize = 32;

pub const STATES_AT: usize = 32;

pub const ENTRIES_AT: usize = 64;

pub const ENTRY_BYTES: usize = 32;

pub const PAGE_ENTRIES: usize = 126;

// A place is a number of 32 bytes from the image's first byte on: 128 to a sector, of which the first two are no entry.
pub const SECTOR_PLACES: usize = 128;

pub const FIRST_PLACE: usize = 2;

// A blob's version has at most half of the chunk indices: those below 0x80, or those from it on.
pub const VERSION_CHUNKS: usize = 128;

// An image has at most as many items as entries.
pub const MOST_ITEMS: usize = 2016;
