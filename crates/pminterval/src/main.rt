// Works out the persist interval of a byte after a trace, both from standard input, and prints it with the sites of its events, or the
// refusal.
#![tactic(auto)]

use reports::asking;
use stdio::Console;

// A trace of more than 65,536 bytes is read as far as 65,537, and refused by 2.
fn main(rt: HostRuntime) {
    let mut input = [0u8; 65539];
    let mut text = [0u8; asking::LONGEST];
    let mut console = Console::new(&rt, b"pminterval");
    let _ = console.run(&mut input, &mut text, asking::report);
}
