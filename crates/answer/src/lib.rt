// What a call answers, and the stages of a stopped one.
#![tactic(auto)]

ghost use Rattle.std.specs.Prelude.{◌≡◌};
ghost use Rattle.answer.specs.Answer.{number_of, steps_of};
ghost use Rattle.answer.specs.Went.{in_stage, told_of};

use flash::Ran;

// The stage of the first step that was not made. Finish names its source sector; reclaim is one stage.
#[derive(Clone, Copy)]
pub enum Stage {
    Order,
    Finish(usize),
    Blobs,
    Duplicates,
    Reclaim,
}

// One enum with a number for each case, as document 01 has the answers, and no Result: Done and Stopped are no refusals, they say how many steps were made.
#[derive(Clone, Copy)]
pub enum Answer {
    Done(u64),
    NotSectors,
    FewRecords,
    ActiveStands,
    AllWritten,
    NoFreeSector,
    SequencesSpent,
    Stopped(Stage, u64),
}

// What became of steps that have stages: all were made, and so many are still allowed; or none is, and this is the stage of the first that was not made.
pub type Went = Result<u64, Stage>;

// The number that document 01 gives an answer.
pub fn number(answer: Answer) -> u8
    ensures { result ≡ number_of answer }
{
    match answer {
        Answer::Done(_) => 0,
        Answer::NotSectors => 1,
        Answer::FewRecords => 2,
        Answer::ActiveStands => 3,
        Answer::AllWritten => 4,
        Answer::NoFreeSector => 5,
        Answer::SequencesSpent => 6,
        Answer::Stopped(_, _) => 7,
    }
}

// How many steps the call made.
pub fn steps(answer: Answer) -> u64
    ensures { result ≡ steps_of answer }
{
    match answer {
        Answer::Done(n) | Answer::Stopped(_, n) => n,
        Answer::NotSectors
        | Answer::FewRecords
        | Answer::ActiveStands
        | Answer::AllWritten
        | Answer::NoFreeSector
        | Answer::SequencesSpent => 0,
    }
}

// What became of steps that are all of one stage.
pub fn in_stage(stage: Stage, ran: Ran) -> Went
    ensures { result ≡ in_stage stage ran }
{
    ran.map_err(|_| stage)
}

// The answer of a call to which `allowance` steps were allowed.
pub fn told(went: Went, allowance: u64) -> Answer
    ensures { result ≡ told_of went allowance }
{
    match went {
        Ok(left) => Answer::Done(allowance.saturating_sub(left)),
        Err(stage) => Answer::Stopped(stage, allowance),
    }
}
