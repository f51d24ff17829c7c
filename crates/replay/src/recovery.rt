// The answers to op 0, recovery: a call's, and then the records that were lent; and to op 3, the listing.
ghost use Rattle.std.specs.Prelude.{◌≤◌};

use crate::bytes::{low, put_four};
use crate::calls::write_call;
use lent::MOST_LENT;
use page::{PageRecord, PageState};
use std::io;
use std::io::ErrorKind;

// What is lent. No page has so many entries: a record that a call leaves unchanged is told by it.
const UNCHANGED: PageRecord = PageRecord {
    state: PageState::Blank,
    unread: 0xEE,
    sequence: 0xEEEE_EEEE,
    written: 0xEE,
    erased: 0xEE,
    empty: 0xEE,
    illegal: 0xEE,
};

// The protocol's byte, as with the stages.
fn state_number(state: PageState) -> u8 {
    match state {
        PageState::Blank => 0,
        PageState::Corrupt => 1,
        PageState::Active => 2,
        PageState::Full => 3,
        PageState::Freeing => 4,
    }
}

fn write_record(rt: &impl Print, r: &PageRecord) -> io::Result<()> {
    if r.written == UNCHANGED.written {
        return rt.write_all(&[0xEE; 25]);
    }
    let mut out = [0u8; 25];
    out[0] = state_number(r.state);
    put_four(&mut out, 1, r.sequence);
    put_four(&mut out, 5, u32::from(r.written));
    put_four(&mut out, 9, u32::from(r.erased));
    put_four(&mut out, 13, u32::from(r.empty));
    put_four(&mut out, 17, u32::from(r.illegal));
    put_four(&mut out, 21, u32::from(r.unread));
    rt.write_all(&out)
}

fn write_records(rt: &impl Print, records: &[PageRecord]) -> io::Result<()> {
    rt.write_all(&low(records.len()).to_le_bytes())?;
    for r in records {
        write_record(rt, r)?;
    }
    Ok(())
}

pub fn answer_recover(
    rt: &impl Print,
    image: &mut [u8],
    lent: usize,
    allowance: u64,
) -> io::Result<()> {
    if lent > MOST_LENT {
        return Err(ErrorKind::InvalidData.into());
    }
    let made = lent::recover_lent(image, [UNCHANGED; MOST_LENT], lent, allowance);
    write_call(rt, made.answer, image)?;
    write_records(rt, &made.records[..lent])
}

// The text's length, and the text.
pub fn answer_listing(rt: &impl Print, image: &mut [u8]) -> io::Result<()> {
    let length = image.len() as u64;
    let mut out = [0u8; 2048];
    let n = listing::list_image(image, length, &mut out);
    rt.write_all(&low(n).to_le_bytes())?;
    rt.write_all(&out[..n])
}
