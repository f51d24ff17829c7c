// C names for the benchmark and the cuts: the proved code as it stands, on plain slices. Nothing here is offered to users. Each answers one
// number, so some stand in pairs.
#![tactic(auto)]

use answer::Answer;
use layout::{MOST_SECTORS, PAGE_ENTRIES, SECTOR_BYTES};
use reader::Handed;

// How many items one walk of a whole sector meets.
#[unsafe(no_mangle)]
pub extern "C" fn timing_walk(sector: &[u8]) -> usize {
    if sector.len() != SECTOR_BYTES {
        return 0;
    }
    let mut out = [0u16; PAGE_ENTRIES];
    walking::places(sector, 0, &mut out, 0).end
}

// How many items the reader hands out of a sector, one a call.
#[unsafe(no_mangle)]
pub extern "C" fn timing_reader(sector: &[u8]) -> usize {
    let mut at = reader::begins_at(sector);
    let mut unread: u8 = 0;
    for count in 0..PAGE_ENTRIES {
        let read = reader::read_on(sector, at, unread);
        if !matches!(read.handed, Handed::Item(_)) {
            return count;
        }
        at = read.next;
        unread = read.unread;
    }
    PAGE_ENTRIES
}

// How many steps one reclaim of an image makes.
#[unsafe(no_mangle)]
pub extern "C" fn timing_reclaim(image: &mut [u8], allowance: u64) -> u64 {
    answer::steps(reclaim::reclaim(image, allowance))
}

// How many steps one recovery of an image makes.
#[unsafe(no_mangle)]
pub extern "C" fn timing_recover(image: &mut [u8], allowance: u64) -> u64 {
    answer::steps(recover::recover_image(image, MOST_SECTORS, allowance).answer)
}

// An answer in one number: sixteen times its steps, and its own number. (The remainder shuts out an overflow; no list is as long.)
fn packed(answer: Answer) -> u64 {
    answer::steps(answer) % 0x1_0000_0000 * 16 + u64::from(answer::number(answer))
}

// What one reclaim of an image answers.
#[unsafe(no_mangle)]
pub extern "C" fn timing_reclaim_answer(image: &mut [u8], allowance: u64) -> u64 {
    packed(reclaim::reclaim(image, allowance))
}

// What one recovery of an image answers.
#[unsafe(no_mangle)]
pub extern "C" fn timing_recover_answer(image: &mut [u8], allowance: u64) -> u64 {
    packed(recover::recover_image(image, MOST_SECTORS, allowance).answer)
}
