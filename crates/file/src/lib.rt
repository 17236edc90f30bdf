// A trace file that is being written, in an area that the caller lends: what its writer knows, and what each call answers. No code: the
// calls are in `writer`.
#![tactic(auto)]

// What a writer knows of its file: the window's lines, where the first record stands, how many records there are, and how many
// transactions are open.
#[derive(Clone, Copy)]
pub struct Writer {
    pub lines: u16,
    pub offset: u32,
    pub count: u32,
    pub depth: u16,
}
