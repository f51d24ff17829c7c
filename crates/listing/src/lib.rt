// The listing of an image: it is recovered, and each sector's record is a line.
#![tactic(auto)]

ghost use Rattle.std.specs.Prelude.{◌++◌};
ghost use Rattle.io.specs.Counts.{IsPrefixLen};
ghost use Rattle.text.specs.Text.{Put};
ghost use Rattle.lines.specs.Lines.{head};
ghost use Rattle.listing.specs.Listing.{lines, Listed};

use answer::Answer;
use layout::{MOST_SECTORS, SECTOR_BYTES};
use lines::{put_head, put_line};
use page::PageRecord;
use recover::Recovered;
use text::Text;

fn put_all(out: &mut [u8], sectors: u64, answer: Answer, rows: &[PageRecord]) -> usize
    ensures { Put out.old 0 (head sectors answer ++ lines 0 rows.now) out.new result }
{
    let mut text = Text::new(out);
    put_head(&mut text, sectors, answer);
    for (n, r) in rows.iter().enumerate() {
        put_line(&mut text, n, *r);
    }
    text.at
}

// Recovers the image with an allowance that no list of steps reaches and puts its listing into `out`: at most 1,294 bytes. Answers how many. `bytes` is the
// image's length, of which `image` may be only a part where it is longer than any image that is recovered.
#[tactic(auto, using(recover::proofs::Fixed::rows_fit, crate::proofs::Lines::listing_is))]
pub fn list_image(image: &mut [u8], bytes: u64, out: &mut [u8]) -> usize
    ensures prefix_len { IsPrefixLen result out.new }
    ensures listed { Listed image.old bytes image.new out.old out.new result }
{
    let Recovered { answer, rows } = recover::recover_image(image, MOST_SECTORS, u64::MAX);
    put_all(
        out,
        bytes / SECTOR_BYTES as u64,
        answer,
        &rows.rows[..rows.count],
    )
}
