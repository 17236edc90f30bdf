// Makes the calls on standard input, which the unrelated checker wrote: findings are put into a findings area, and laid out on pages in a
// page area. Prints a line for each layout, and for some of them the pages. A call has 24 bytes.
#![tactic(auto)]

use setting::Findings;
use std::io::{Read, Write};
use writer_calls::setting::size_at;

mod laying; // the calls that lay out the findings, printed
mod setting; // the calls that change the findings area

// The findings area has at most 65,537 findings.
const SPACE: usize = 786444;

// The page area has a line more than the longest pages.
const PAGES: usize = 4203352;

// Makes the calls, at most a million. The page area is the first bytes of its space.
fn make_calls<R: Read, W: Write>(
    input: &mut R,
    out: &mut W,
    findings: &mut Findings<SPACE>,
    pages: &mut [u8; PAGES],
) {
    let mut bytes = [0u8; 24];
    for _ in 0..1_000_000 {
        if input.read_exact(&mut bytes).is_err() {
            return;
        }
        findings.call(&bytes);
        let size = size_at(&bytes, 4, pages);
        laying::call(out, findings.as_slice(), &mut pages[..size], bytes[0]);
    }
}

fn main(rt: HostRuntime) {
    let mut findings = Findings {
        space: [0; SPACE],
        used: 0,
    };
    let mut pages = [0u8; PAGES];
    make_calls(&mut rt.stdin(), &mut rt.stdout(), &mut findings, &mut pages);
}
