// Recovery: what power loss left unfinished is finished, and what is there twice is left once.
#![tactic(auto)]

ghost use Rattle.std.specs.Prelude.{◌≡◌, ◌*◌, length};
ghost use Rattle.table.specs.Table.{listed};
ghost use Rattle.records.specs.Records.{no_rows};
ghost use Rattle.records.specs.Scanned.{scanned_of};
ghost use Rattle.stages.specs.Stages.{too_high};
ghost use Rattle.recover.specs.Promise.{Recovers, RecoverPromise};

use answer::{Answer, Went};
use layout::{MOST_SECTORS, SECTOR_BYTES};
use page::PageRecord;
use records::{Rows, Scanned};
use table::Table;

#[cfg(test)]
mod tests;

// The answer, and the rows to store: none where the call is refused or stopped.
#[derive(Clone, Copy)]
pub struct Recovered {
    pub answer: Answer,
    pub rows: Rows,
}

// Whether the sequences that stage 2 might take are not there.
fn is_too_high(table: &Table) -> bool
    ensures { result ≡ too_high (listed table.now) }
{
    let count = finishing::count_freeing(table);
    if count == 0 {
        return false;
    }
    0xFFFF_FFFE - count < table.greatest_sequence() as usize
}

fn without_rows(answer: Answer) -> Recovered
    ensures { (result.answer ≡ answer) × (result.rows ≡ no_rows) }
{
    Recovered {
        answer,
        rows: records::no_rows(),
    }
}

// What is seen of the image as the stages left it, with `left` steps still allowed: without a step it is still the one that was scanned.
fn see_again(image: &[u8], scanned: Scanned, left: u64, allowance: u64) -> Scanned
    requires { (length image.now ≡ scanned.count * 4096) × (left ≡ allowance → scanned ≡ scanned_of image.now scanned.count) }
    ensures { result ≡ scanned_of image.now scanned.count }
{
    if left == allowance {
        return scanned;
    }
    records::see_all(image, scanned.count)
}

// Recovers the image by at most `allowance` steps, where `lent` records are lent.
pub fn recover_image(image: &mut [u8], lent: usize, allowance: u64) -> Recovered
    ensures { Recovers image.old lent allowance image.new result }
{
    if !table::is_whole(image) {
        return without_rows(Answer::NotSectors);
    }
    let sectors = image.len() / SECTOR_BYTES;
    if lent < sectors {
        return without_rows(Answer::FewRecords);
    }
    let scanned = records::see_all(image, sectors);
    let table = table::list_seen(&scanned);
    if is_too_high(&table) {
        return without_rows(Answer::SequencesSpent);
    }
    let mut notes = [0u16; MOST_SECTORS];
    let went = stages::make_stages(image, table, &mut notes, allowance);
    let answer = answer::told(went, allowance);
    let Ok(left) = went else {
        return without_rows(answer);
    };
    let last = see_again(image, scanned, left, allowance);
    let rows = records::make_rows(image, &last, &notes);
    Recovered { answer, rows }
}

// Recovers the image by at most `allowance` steps. After the last step the page records go into `records`, one a sector.
pub fn recover(image: &mut [u8], records: &mut [PageRecord], allowance: u64) -> Answer
    ensures { RecoverPromise image.old records.old allowance image.new records.new result }
{
    let made = recover_image(image, records.len(), allowance);
    records::fill(records, made.rows);
    made.answer
}
