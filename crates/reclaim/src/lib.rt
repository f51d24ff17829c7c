// Reclaim: the page that wins most by it is copied to a fresh sector without its Erased entries, and erased.
#![tactic(auto)]

ghost use Rattle.std.specs.Prelude.{◌≡◌, ◌+◌, ◌*◌, ◌≤◌, length, Ok};
ghost use Rattle.flash.specs.Did.{Did};
ghost use Rattle.reclaim.specs.Reclaim.{plan_steps};
ghost use Rattle.reclaim.specs.Promise.{ReclaimPromise};

use answer::{Answer, Stage};
use flash::Ran;
use layout::SECTOR_BYTES;
use plan::Plan;

// Marks the source Freeing first: a cut before the copy is whole is then seen by recovery, which makes it anew.
fn move_marked(image: &mut [u8], source: usize, target: usize, sequence: u32, allowance: u64) -> Ran
    requires { (source * 4096 + 4096 ≤ length image.old) × (target * 4096 + 4096 ≤ length image.old) × (source ≡ target → ⊥) }
    ensures { Did (plan_steps image.old (Ok (Plan.Move source target sequence))) allowance image.old image.new result }
{
    let left = item::mark_freeing(image, source, allowance)?;
    relocate::move_page(image, source, target, sequence, left)
}

// Reclaims one page of the image, making at most `allowance` steps.
pub fn reclaim(image: &mut [u8], allowance: u64) -> Answer
    ensures { ReclaimPromise image.old allowance image.new result }
{
    if !table::is_whole(image) {
        return Answer::NotSectors;
    }
    let table = table::scan(image, image.len() / SECTOR_BYTES);
    let plan = match plan::plan_of(&table) {
        Ok(plan) => plan,
        Err(answer) => return answer,
    };
    let ran = match plan {
        Plan::Clear(source) => flash::erase_sector(image, source, allowance),
        Plan::Move(source, target, sequence) => {
            move_marked(image, source, target, sequence, allowance)
        }
    };
    answer::told(answer::in_stage(Stage::Reclaim, ran), allowance)
}
