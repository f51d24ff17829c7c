// Answers a batch of cases on standard input by the proved calls, one answer a case on standard output. All integers are little-endian.
//
//     case      u8 op, u64 allowance, u32 records, u32 length, then the image's bytes
//     op 0      recovery: u8 result, u64 steps, u8 stage, u32 source, u32 length, the image, u32 records, then each record's state in 1 byte and its
//               six numbers in 4 bytes each; of a record that was left unchanged every byte is 0xEE
//     op 1      reclaim: the same, with no record
//     op 2      the item reader of one sector: u8 result, u32 count, then each item's entry in 4 bytes and its 32 header bytes, then u32 unread: what the
//               reader has counted when no item is left
//     op 3      the listing: u32 length, the text
//
// Input that ends inside a case, a length above 131,072, more than 32 records and an op that is none end the run after the last whole case.
#![tactic(auto)]

mod bytes;
mod calls;
mod items;
mod recovery;

use std::io;
use std::io::{Error, ErrorKind, Read};

#[derive(Clone, Copy)]
enum Op {
    Recovery,
    Reclaim,
    Items,
    Listing,
}

impl TryFrom<u8> for Op {
    type Error = Error;

    fn try_from(op: u8) -> io::Result<Op> {
        match op {
            0 => Ok(Op::Recovery),
            1 => Ok(Op::Reclaim),
            2 => Ok(Op::Items),
            3 => Ok(Op::Listing),
            _ => Err(ErrorKind::InvalidData.into()),
        }
    }
}

// Reads one case into `room` and writes its answer. It fails where the run is to end.
fn one_case<R: Read>(rt: &impl Print, input: &mut R, room: &mut [u8]) -> io::Result<()> {
    let mut head = [0u8; 17];
    input.read_exact(&mut head)?;
    let length = word::le32(&head, 13) as usize;
    if room.len() < length {
        return Err(ErrorKind::InvalidData.into());
    }
    let image = &mut room[..length];
    input.read_exact(image)?;
    let allowance = word::le64(&head, 1);
    match Op::try_from(head[0])? {
        Op::Recovery => {
            recovery::answer_recover(rt, image, word::le32(&head, 9) as usize, allowance)
        }
        Op::Reclaim => calls::answer_reclaim(rt, image, allowance),
        Op::Items => answer_items(rt, image),
        Op::Listing => recovery::answer_listing(rt, image),
    }
}

fn answer_items(rt: &impl Print, sector: &[u8]) -> io::Result<()> {
    let mut out = [0u8; items::MOST_BYTES];
    let n = items::answer(sector, &mut out);
    rt.write_all(&out[..n])
}

// Nothing says that the input ends, and a proved loop has to: it counts up to a number of cases that no run reaches.
fn main(rt: HostRuntime) {
    let mut input = rt.stdin();
    let mut image = [0u8; 131072];
    for _ in 0..u64::MAX {
        if one_case(&rt, &mut input, &mut image).is_err() {
            return;
        }
    }
}
