// What the programs beside `pmjudge` print.
#![tactic(auto)]

pub mod asking; // the persist interval of a byte after a trace
pub mod exposing; // the mean exposure of a trace
pub mod finding; // the findings of a trace
pub mod paging; // findings on pages
