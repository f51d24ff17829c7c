// What a reclaim is to do, worked out from the page table alone.
#![tactic(auto)]

ghost use Rattle.std.specs.Prelude.{◌≡◌, ◌≤◌};
ghost use mathlib.Core.List.{get_last?};
ghost use Rattle.lists.specs.Lists.{greatest};
ghost use Rattle.table.specs.Table.{sequence, listed, freed};
ghost use Rattle.table.specs.Sought.{sought_of};
ghost use Rattle.plan.specs.Plan.{points, chosen, plan_to, plan};
ghost use Rattle.plan.specs.Choosing.{target_of};

use answer::Answer;
use table::{Page, Table};

// A page's entries, as its record counts them.
const ALL_ENTRIES: u8 = 126;

// The source is erased, since all its entries are Erased; or its items are moved to the target, which gets the sequence.
#[derive(Clone, Copy)]
pub enum Plan {
    Clear(usize),
    Move(usize, usize, u32),
}

// The points of a page, where `next` is one above the greatest sequence: it may be 2^32, so they are counted in 64 bits.
fn points_of(next: u64, p: &Page) -> u64
    requires { next ≤ 0x1_0000_0000 }
    ensures { result ≡ points next p.now }
{
    if p.seen.erased == 0 {
        return 0;
    }
    10 * u64::from(p.seen.erased) + next.saturating_sub(u64::from(p.seen.sequence))
}

// The page to reclaim: that of most points, and the last of equals.
fn choose(table: &Table, top: u32) -> Option<Page>
    requires { top ≡ greatest sequence (listed table.now) }
    ensures { result ≡ sought_of (chosen (listed table.now)) }
{
    let next = u64::from(top) + 1;
    table
        .listed()
        .iter()
        .filter(|p| p.seen.written < ALL_ENTRIES)
        .reduce(|best, p| if points_of(next, best) <= points_of(next, p) {
            p
        } else {
            best
        })
        .copied()
}

// "the last is taken first"
fn last_free(table: &Table) -> Option<usize>
    ensures { result ≡ target_of (get_last? (freed table.now)) }
{
    table.freed().last().map(|s| usize::from(*s))
}

// The crate marks the page Freeing before it looks for a free one; here the looking comes first, so that a refusal changes nothing.
fn plan_copy(table: &Table, source: usize, top: u32) -> Result<Plan, Answer>
    requires { top ≡ greatest sequence (listed table.now) }
    ensures { result ≡ plan_to (listed table.now) source (get_last? (freed table.now)) }
{
    let target = last_free(table).ok_or(Answer::NoFreeSector)?;
    if 0xFFFF_FFFD < top {
        return Err(Answer::SequencesSpent);
    }
    Ok(Plan::Move(source, target, top + 1))
}

// The plan for the pages and the free sectors that the table lists, or why there is none.
pub fn plan_of(table: &Table) -> Result<Plan, Answer>
    ensures { result ≡ plan (listed table.now) (freed table.now) }
{
    if table.any_active() {
        return Err(Answer::ActiveStands);
    }
    let top = table.greatest_sequence();
    let p = choose(table, top).ok_or(Answer::AllWritten)?;
    if p.seen.erased == ALL_ENTRIES {
        return Ok(Plan::Clear(usize::from(p.sector)));
    }
    plan_copy(table, usize::from(p.sector), top)
}
