// A program's way to recovery's lent records: they stand in an array by value.
#![tactic(auto)]

ghost use Rattle.std.specs.Prelude.{◌≡◌, ◌≤◌, take, drop};
ghost use Rattle.recover.specs.Promise.{RecoverPromise};

use answer::Answer;
use page::PageRecord;

// The records that a program can lend.
pub const MOST_LENT: usize = 32;

// The answer, and the records after the call: those that were lent, and those behind them.
#[derive(Clone, Copy)]
pub struct Lent {
    pub answer: Answer,
    pub records: [PageRecord; MOST_LENT],
}

// Recovers the image with the first `lent` of the records lent to the call.
pub fn recover_lent(
    image: &mut [u8],
    given: [PageRecord; MOST_LENT],
    lent: usize,
    allowance: u64,
) -> Lent
    requires { lent ≤ 32 }
    ensures { RecoverPromise image.old (take lent given) allowance image.new (take lent result.records) result.answer × (drop lent result.records ≡ drop lent given) }
{
    let mut records = given;
    let answer = recover::recover(image, &mut records[..lent], allowance);
    Lent { answer, records }
}
