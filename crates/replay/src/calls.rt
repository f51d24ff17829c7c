// The answer to op 1, reclaim, and what it has in common with recovery's.
use crate::bytes::{low, put_four};
use answer::{Answer, Stage};
use std::io;

// The protocol's bytes: both types are of other crates, so no From stands here.
fn stage_number(answer: Answer) -> u8 {
    match answer {
        Answer::Stopped(Stage::Order, _) => 1,
        Answer::Stopped(Stage::Finish(_), _) => 2,
        Answer::Stopped(Stage::Blobs, _) => 3,
        Answer::Stopped(Stage::Duplicates, _) => 4,
        Answer::Stopped(Stage::Reclaim, _) => 5,
        _ => 0,
    }
}

fn source_of(answer: Answer) -> u32 {
    match answer {
        Answer::Stopped(Stage::Finish(sector), _) => low(sector),
        _ => u32::MAX,
    }
}

// Result, steps, stage, source and the image's length, and then the image.
pub fn write_call(rt: &impl Print, answer: Answer, image: &[u8]) -> io::Result<()> {
    let mut out = [0u8; 18];
    out[0] = answer::number(answer);
    out[1..9].copy_from_slice(&answer::steps(answer).to_le_bytes());
    out[9] = stage_number(answer);
    put_four(&mut out, 10, source_of(answer));
    put_four(&mut out, 14, low(image.len()));
    rt.write_all(&out)?;
    rt.write_all(image)
}

pub fn answer_reclaim(rt: &impl Print, image: &mut [u8], allowance: u64) -> io::Result<()> {
    let answer = reclaim::reclaim(image, allowance);
    write_call(rt, answer, image)?;
    rt.write_all(&[0, 0, 0, 0])
}
