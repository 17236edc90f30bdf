// Makes the calls on standard input, which the unrelated checker wrote, and prints an answer line for each: fresh windows, events given
// singly, bytes asked, closings and mean exposures, and those of a writer, with the bytes of its area that each changed. Fences given many
// at a time, and calls that set the writer's area, its preamble or its numbers, have no line. A call has 12 bytes.
#![tactic(auto)]

ghost use Rattle.std.specs.Prelude.{◌≡◌, length};

use file::Writer;
use std::io::{Read, Write};

mod calls; // the calls of the engine, printed

// Makes the calls, at most a million. The area and the preamble are the first bytes of their spaces; `before` has room for the area.
fn make_calls<R: Read, W: Write>(
    input: &mut R,
    out: &mut W,
    area: &mut [u8],
    before: &mut [u8],
    preamble: &mut [u8],
)
    requires { length area.old ≡ length preamble.old }
{
    let mut run = engine::fresh(1).run;
    // stays: `room` and `free` beside their spaces, as `setting` takes them (why, stands there)
    let mut room: usize = 0;
    let mut free: usize = 0;
    let mut writer = Writer {
        lines: 1,
        offset: 0,
        count: 0,
        depth: 0,
    };
    let mut bytes = [0u8; 12];
    for _ in 0..1_000_000 {
        if input.read_exact(&mut bytes).is_err() {
            return;
        }
        if bytes[0] < 32 {
            calls::call(out, &mut run, &bytes);
        } else {
            room = writer_calls::setting::area(area, room, &bytes);
            free = writer_calls::setting::preamble(preamble, free, &area[..room], &bytes);
            writer = writer_calls::writing::answer(
                out,
                &mut area[..room],
                before,
                &preamble[..free],
                writer,
                &bytes,
            );
        }
    }
}

fn main(rt: HostRuntime) {
    let mut area = [0u8; 65600];
    let mut before = [0u8; 65600];
    let mut preamble = [0u8; 65600];
    make_calls(
        &mut rt.stdin(),
        &mut rt.stdout(),
        &mut area,
        &mut before,
        &mut preamble,
    );
}
