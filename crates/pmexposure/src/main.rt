// Works out the mean exposure of the trace on standard input, and prints it or the refusal.
#![tactic(auto)]

use reports::exposing;
use stdio::Console;

// An input of more than 65,536 bytes is read as far as 65,537, and refused by 2.
fn main(rt: HostRuntime) {
    let mut trace = [0u8; 65537];
    let mut text = [0u8; exposing::LONGEST];
    let mut console = Console::new(&rt, b"pmexposure");
    let _ = console.run(&mut trace, &mut text, exposing::report);
}
