// The calls of a writer that `engine_runs` makes; `page_runs` uses their sum and their fill too.
#![tactic(auto)]

pub mod changes; // the bytes that a call changed, printed
pub mod setting; // the area and the preamble of a writer
pub mod writing; // the calls, printed
