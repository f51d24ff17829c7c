// The items of one group in recovery's fourth stage: all but the newest go.
#![tactic(auto)]

mod old;
mod run;

pub use run::take_run;
