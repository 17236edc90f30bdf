// Runs the corpus of the unrelated checker: each trace on standard input is judged, and what the judge leaves in the findings area and
// what is printed for the trace are compared with what that checker says. Names the traces that differ, and counts the answers and the
// findings.
#![tactic(auto)]

ghost use Rattle.std.specs.Prelude.{◌≡◌, ◌≤◌, length, cond, ltb};
ghost use Rattle.codec.specs.Codec.{u32_at};

use std::io::{Read, Write};

// The length of a part, which is at this place of the header; 0 where there is no room for so many bytes.
fn part_length(header: &[u8], at: u8, room: usize) -> usize
    ensures { result ≡ cond (ltb room (u32_at header.now at)) 0 (u32_at header.now at) }
{
    let len = codec::u32_at(header, at) as usize;
    if room < len { 0 } else { len }
}

// Reads a part to the start of the buffer. The input decides how many bytes come; they are counted, and no more are than the
// buffer has.
fn read_part<R: Read>(input: &mut R, header: &[u8], at: u8, buf: &mut [u8]) -> usize
    ensures { result ≤ length buf.new }
{
    let len = part_length(header, at, buf.len());
    stdio::read_full(input, &mut buf[..len])
}

// How many traces got each answer, and how many findings of each kind there were.
#[derive(Drop)]
struct Tally {
    answers: [u32; 19],
    kinds: [u32; 9],
}

// `differs: small/torn`
fn print_differs<W: Write>(out: &mut W, name: &[u8]) {
    let _ = write!(out, "differs: ");
    let _ = out.write_all(name);
    let _ = writeln!(out);
}

// Judges a trace into an area as long as the one it is compared with. The input decides the answer, and nothing is promised of it.
fn run_parts(trace: &[u8], after: &[u8], text: &[u8], tally: &mut Tally) -> bool {
    let mut area = [0u8; 65536];
    let len = after.len();
    if area.len() < len {
        return false;
    }
    corpus::run(
        trace,
        &mut area[..len],
        after,
        text,
        &mut tally.answers,
        &mut tally.kinds,
    )
}

// Reads the trace, findings area and text of an entry, whose lengths the header gives, and runs the trace.
fn read_parts<R: Read>(input: &mut R, header: &[u8], tally: &mut Tally) -> bool {
    let mut trace = [0u8; 65537];
    let mut after = [0u8; 65536];
    let mut text = [0u8; 262144];
    let trace_len = read_part(input, header, 4, &mut trace);
    let after_len = read_part(input, header, 8, &mut after);
    let text_len = read_part(input, header, 12, &mut text);
    run_parts(
        &trace[..trace_len],
        &after[..after_len],
        &text[..text_len],
        tally,
    )
}

// Reads an entry, its name first, and runs it. Nothing is promised of its answer either.
fn entry<R: Read, W: Write>(input: &mut R, out: &mut W, header: &[u8], tally: &mut Tally) -> bool {
    let mut name = [0u8; 64];
    let n = read_part(input, header, 0, &mut name);
    let same = read_parts(input, header, tally);
    if !same {
        print_differs(out, &name[..n]);
    }
    same
}

// How many traces were run, and how many of them differ.
#[derive(Drop)]
struct Ran {
    traces: u16,
    differ: u16,
}

// Runs the entries of the input to its end, or the first 65,535 of them.
fn run_all<R: Read, W: Write>(input: &mut R, out: &mut W, tally: &mut Tally) -> Ran {
    let mut header = [0u8; 16];
    let mut ran = Ran {
        traces: 0,
        differ: 0,
    };
    for _ in 0..65535u16 {
        if input.read_exact(&mut header).is_err() {
            break;
        }
        ran.traces += 1;
        if !entry(input, out, &header, tally) {
            ran.differ += 1;
        }
    }
    ran
}

// How many traces were accepted, and how many refused by each number but 8 and 15 to 17, which no trace is refused by.
fn print_answers<W: Write>(out: &mut W, answers: &[u32; 19]) {
    let _ = writeln!(out, "accepted {}", answers[0]);
    for (number, n) in answers.iter().enumerate().skip(1) {
        if !matches!(number, 8 | 15..=17) {
            let _ = writeln!(out, "refused by {number} {n}");
        }
    }
}

// How many findings of each kind there were.
fn print_kinds<W: Write>(out: &mut W, kinds: &[u32; 9]) {
    for (kind, n) in kinds.iter().enumerate() {
        let _ = out.write_all(finding_lines::name(kind as u8));
        let _ = writeln!(out, " {n}");
    }
}

fn main(rt: HostRuntime) {
    let mut out = rt.stdout();
    let mut tally = Tally {
        answers: [0; 19],
        kinds: [0; 9],
    };
    let ran = run_all(&mut rt.stdin(), &mut out, &mut tally);
    let _ = writeln!(out, "traces {}", ran.traces);
    print_answers(&mut out, &tally.answers);
    print_kinds(&mut out, &tally.kinds);
    let _ = writeln!(out, "differ {}", ran.differ);
}
