// The lines of a listing.
#![tactic(auto)]

ghost use Rattle.std.specs.Prelude.{◌≡◌};
ghost use Rattle.text.specs.Grown.{Grown};
ghost use Rattle.lines.specs.Lines.{state_name, counts, page_text, line, head};

use answer::Answer;
use page::{PageRecord, PageState};
use text::Text;

// Names by a match: there is nothing to derive them from.
fn state_name(state: PageState) -> &'static [u8]
    ensures { result.now ≡ state_name state }
{
    match state {
        PageState::Blank => b"blank",
        PageState::Corrupt => b"corrupt",
        PageState::Active => b"active",
        PageState::Full => b"full",
        PageState::Freeing => b"freeing",
    }
}

// How many entries of a page have each state.
fn put_counts(text: &mut Text, r: PageRecord)
    ensures { Grown text.old (counts r) text.new }
{
    text.field(b"written", u64::from(r.written));
    text.field(b"erased", u64::from(r.erased));
    text.field(b"empty", u64::from(r.empty));
    text.field(b"illegal", u64::from(r.illegal));
}

// What follows the state of a page: a free sector has nothing to tell.
fn put_page(text: &mut Text, r: PageRecord)
    ensures { Grown text.old (page_text r) text.new }
{
    text.push(b' ');
    text.number(u64::from(r.sequence));
    put_counts(text, r);
    text.field(b"unread", u64::from(r.unread));
}

// One line: the sector's number, its state and, of a page, the rest of its record.
pub fn put_line(text: &mut Text, n: usize, r: PageRecord)
    ensures { Grown text.old (line n r) text.new }
{
    text.number(n as u64);
    text.push(b' ');
    text.text(state_name(r.state));
    if !page::is_free(r.state) {
        put_page(text, r);
    }
    text.push(b'\n');
}

pub fn put_head(text: &mut Text, sectors: u64, answer: Answer)
    ensures { Grown text.old (head sectors answer) text.new }
{
    text.text(b"sectors ");
    text.number(sectors);
    text.field(b"result", u64::from(answer::number(answer)));
    text.field(b"steps", answer::steps(answer));
    text.push(b'\n');
}
