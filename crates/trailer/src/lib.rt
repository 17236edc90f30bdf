// The trailer of a trace file, and what refuses the file by it: the limits 1 to 5.
#![tactic(auto)]

pub mod opening; // the trailer read and checked

// The trailer after its mark: where the first record is, how many there are, the window's lines, and a field that is 0.
#[derive(Clone, Copy)]
pub struct Trailer {
    pub offset: u32,
    pub count: u32,
    pub lines: u16,
    pub zero: u16,
}
