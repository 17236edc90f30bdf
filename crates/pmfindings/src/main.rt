// Judges the trace on standard input, and writes its findings area to standard output, 12 bytes for each event, or prints its refusal.
#![tactic(auto)]

use reports::finding;
use stdio::Console;

// An input of more than 65,536 bytes is read as far as 65,537, and refused by 2. The area has room for the findings of every trace.
fn main(rt: HostRuntime) {
    let mut trace = [0u8; 65537];
    let mut area = [0u8; 65520];
    let mut console = Console::new(&rt, b"pmfindings");
    let _ = console.run(&mut trace, &mut area, |trace, area| {
        finding::put_report(trace, area)
    });
}
