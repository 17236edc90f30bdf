// Judges the trace on standard input, and prints its listing or its refusal.
#![tactic(auto)]

use stdio::Console;

// An input of more than 65,536 bytes is read as far as 65,537, and refused by 2. The area has room for the findings of every trace.
fn main(rt: HostRuntime) {
    let mut trace = [0u8; 65537];
    let mut area = [0u8; 65520];
    let mut text = [0u8; listing::LONGEST];
    let mut console = Console::new(&rt, b"pmjudge");
    let _ = console.run(&mut trace, &mut text, |trace, text| {
        listing::report(trace, &mut area, text)
    });
}
