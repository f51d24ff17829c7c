// Recovery, stage 2: round after round, until no page counts as Freeing.
#![tactic(auto)]

ghost use Rattle.std.specs.Prelude.{◌≡◌, ◌+◌, ◌≤◌};
ghost use Rattle.lists.specs.Lists.{greatest};
ghost use Rattle.answer.specs.Went.{Made};
ghost use Rattle.table.specs.Table.{sectors_of, sequence, listed, freed};
ghost use Rattle.table.specs.PagesPlaced.{PagesPlaced};
ghost use Rattle.finishing.specs.Finishing.{freeings, finishing};

use answer::{Stage, Went};
use page::PageState;
use table::Table;

// How many pages of the list count as Freeing.
pub fn count_freeing(table: &Table) -> usize
    ensures { (result ≡ freeings (listed table.now)) × (result ≤ 16) }
{
    table
        .listed()
        .iter()
        .filter(|p| p.seen.state == PageState::Freeing)
        .count()
}

// So many rounds: each takes one page that counts as Freeing away.
pub fn finish_all(image: &mut [u8], table: Table, rounds: usize, allowed: u64) -> Went
    requires { PagesPlaced (sectors_of image.old) (listed table) (freed table) × (greatest sequence (listed table) + rounds ≤ 0xFFFF_FFFE) }
    ensures { Made (finishing rounds (listed table) (freed table) image.old) allowed image.old image.new result }
{
    let mut table = table;
    let mut left = allowed;
    for _ in 0..rounds {
        // there is one as long as rounds are left; to say so would be a premise more
        let Some(x) = table.first_in(PageState::Freeing) else {
            return Ok(left);
        };
        let stage = Stage::Finish(usize::from(x.sector));
        left = answer::in_stage(stage, finish::round(image, x, &mut table, left))?;
    }
    Ok(left)
}
