// The calls of the engine, each with its line printed.
ghost use Rattle.std.specs.Prelude.{◌≡◌};
ghost use Rattle.records.specs.Record.{parsed};
ghost use Rattle.engine.specs.Call.{fresh_of};
ghost use Rattle.engine_runs.specs.Runs.{after_record, after_fences, after_call};

use event::{Event, Finding, Record, Refusal};
use std::io::Write;
use tables::Run;

// A fresh window of so many lines, what the check says, and its run in place of the other.
fn fresh<W: Write>(out: &mut W, run: &mut Run<4096>, lines: u16)
    ensures { run.new ≡ (fresh_of lines).run }
{
    let w = engine::fresh(lines);
    let _ = write!(out, "fresh {lines}");
    call_lines::answered(out, replies::of(w.check));
    *run = w.run;
}

// An event given in the bytes of a record, and its answer.
fn print_given<W: Write>(out: &mut W, bytes: &[u8], a: Result<Finding, Refusal>) {
    call_lines::record(out, b"give ", bytes);
    call_lines::answered(out, replies::of(a));
}

// An event given. A record that cannot be read changes nothing.
fn give<W: Write>(out: &mut W, run: &mut Run<4096>, bytes: &[u8])
    ensures { run.new ≡ after_record run.old (parsed bytes.now) }
{
    match records::read_record(bytes) {
        Err(x) => print_given(out, bytes, Err(x)),
        Ok(r) => print_given(out, bytes, engine::give(run, r)),
    }
}

// A byte asked.
fn ask<W: Write>(out: &mut W, run: &Run<4096>, byte: u16) {
    let _ = write!(out, "ask {byte}");
    call_lines::answered(out, replies::of(engine::ask(run, byte)));
}

// The run closed.
fn close<W: Write>(out: &mut W, run: &Run<4096>) {
    let _ = write!(out, "close");
    call_lines::answered(out, replies::of(engine::close(run)));
}

// The run asked for its mean exposure.
fn expose<W: Write>(out: &mut W, run: &Run<4096>) {
    let _ = write!(out, "exposure");
    call_lines::answered(out, replies::of(exposure::exposure(run)));
}

// So many fences given, with no line printed.
fn give_fences(run: &mut Run<4096>, count: u16)
    ensures { run.new ≡ after_fences run.old count }
{
    let fence = Record {
        event: Event::Fence,
        site: 0,
    };
    for _ in 0..count {
        let _ = engine::give(run, fence);
    }
}

// The call in 12 bytes: kinds 1 to 8 are events, 16 a fresh window, 17 a byte asked, 18 a closing, 19 fences, 20 the mean exposure.
pub fn call<W: Write>(out: &mut W, run: &mut Run<4096>, bytes: &[u8])
    ensures { run.new ≡ after_call run.old bytes.now }
{
    let number = codec::u16_at(bytes, 2);
    // stays: the kind is a byte of the file, of which `after_call` speaks, and is read here alone: an enum of calls is no plainer, a type and a
    // match that makes it, for this one match
    match codec::byte_at(bytes, 0) {
        16 => fresh(out, run, number),
        17 => ask(out, run, number),
        18 => close(out, run),
        19 => give_fences(run, number),
        20 => expose(out, run),
        _ => give(out, run, bytes),
    }
}
