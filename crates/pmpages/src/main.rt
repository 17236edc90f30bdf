// Lays out the findings area on standard input on pages, and prints the pages or the refusal.
#![tactic(auto)]

use reports::paging;
use stdio::Console;

// The area has room for 65,535 findings and a byte: a longer input is read so far, and refused by 5.
const AREA: usize = 786421;

// The text has room for the pages of 65,535 findings, 1,130 of them.
const TEXT: usize = 4203290;

fn main(rt: HostRuntime) {
    let mut area = [0u8; AREA];
    let mut text = [0u8; TEXT];
    let mut console = Console::new(&rt, b"pmpages");
    let _ = console.run(&mut area, &mut text, |area, text| {
        paging::put_report(area, text)
    });
}
