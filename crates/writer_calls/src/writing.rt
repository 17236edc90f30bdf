// The calls of a writer, each with its answer printed; the line goes on with what the call changed.
ghost use Rattle.std.specs.Prelude.{◌≡◌};
ghost use Rattle.codec.specs.Placed.{placed};
ghost use Rattle.file.specs.Write.{started_of, area_started, bytes_written_of, area_bytes_written, area_closed};
ghost use Rattle.writer_calls.specs.Writing.{writer_of, after_start, record_in, is_answered, writer_after_call, area_after_call};

use crate::changes;
use event::Refusal;
use file::Writer;
use std::io::Write;

// The writer in the 12 bytes of a call.
fn writer_of(bytes: &[u8]) -> Writer
    ensures { result ≡ writer_of bytes.now }
{
    Writer {
        lines: codec::u16_at(bytes, 2),
        offset: codec::u32_at(bytes, 4),
        count: codec::u32_at(bytes, 8),
        depth: codec::byte_at(bytes, 1) as u16,
    }
}

// A start with so many lines, and its answer; the line goes on.
fn print_start<W: Write>(out: &mut W, lines: u16, s: Result<Writer, Refusal>) {
    let _ = write!(out, "start {lines}");
    call_lines::reply(out, replies::of(s));
}

// An event written, and its answer; the line goes on.
fn print_write<W: Write>(out: &mut W, bytes: &[u8], c: Result<(), Refusal>) {
    call_lines::record(out, b"write ", bytes);
    call_lines::reply(out, replies::of(c));
}

// A start, and the writer after it.
fn start<W: Write>(out: &mut W, area: &mut [u8], preamble: &[u8], w: Writer, lines: u16) -> Writer
    ensures value { result ≡ after_start (started_of area.old preamble.now lines) w }
    ensures area_after { area.new ≡ area_started area.old preamble.now lines }
{
    let s = writer::start(area, preamble, lines);
    print_start(out, lines, s);
    s.unwrap_or(w)
}

// An event as the bytes of a record, and the writer after it.
fn write<W: Write>(out: &mut W, area: &mut [u8], mut w: Writer, bytes: &[u8]) -> Writer
    ensures value { result ≡ (bytes_written_of area.old w bytes.now).writer }
    ensures area_after { area.new ≡ area_bytes_written area.old w bytes.now }
{
    let c = writer::write_bytes(area, &mut w, bytes);
    print_write(out, bytes, c);
    w
}

// The file closed.
fn finish<W: Write>(out: &mut W, area: &mut [u8], w: Writer)
    ensures { area.new ≡ area_closed area.old w }
{
    let c = writer::close(area, w);
    let _ = write!(out, "finish");
    call_lines::reply(out, replies::of_closed(c));
}

// The record in the 12 bytes of a call: its kind is the call's less 64, or a multiple of it.
fn record_in(bytes: &[u8]) -> [u8; 12]
    ensures { result ≡ record_in bytes.now }
{
    let mut record = records::padded(bytes);
    record[0] = record[0] % 64;
    record
}

// Whether the call is answered: those that set a writer, its area or its preamble have no line.
fn is_answered(kind: u8) -> bool
    ensures { result ≡ is_answered kind }
{
    kind == 35 || kind == 36 || 64 <= kind
}

// The call in 12 bytes, and the writer after it: 35 is a start, 36 a closing, 37 a writer of any numbers, 64 and more an event. Any other
// changes nothing.
fn call<W: Write>(out: &mut W, area: &mut [u8], preamble: &[u8], w: Writer, bytes: &[u8]) -> Writer
    ensures value { result ≡ writer_after_call area.old preamble.now w bytes.now }
    ensures area_after { area.new ≡ area_after_call area.old preamble.now w bytes.now }
{
    // stays: the kind is a byte of the file, of which `writer_after_call` speaks, and is read here and in `is_answered`: an enum of calls is no
    // plainer, a type and a match that makes it, for this one match
    match codec::byte_at(bytes, 0) {
        35 => start(out, area, preamble, w, codec::u16_at(bytes, 2)),
        36 => {
            finish(out, area, w);
            w
        }
        37 => writer_of(bytes),
        64..=255 => {
            let record = record_in(bytes);
            write(out, area, w, &record)
        }
        _ => w,
    }
}

// The same, with what it changed of the area printed behind an answer. `before` takes the area as it
// was, where it has room.
pub fn answer<W: Write>(
    out: &mut W,
    area: &mut [u8],
    before: &mut [u8],
    preamble: &[u8],
    w: Writer,
    bytes: &[u8],
) -> Writer
    ensures value { result ≡ writer_after_call area.old preamble.now w bytes.now }
    ensures area_after { area.new ≡ area_after_call area.old preamble.now w bytes.now }
    ensures before_after { before.new ≡ placed 0 area.old before.old }
{
    codec::put(before, 0, area);
    let next = call(out, area, preamble, w, bytes);
    if is_answered(codec::byte_at(bytes, 0)) {
        changes::print(out, before, area);
    }
    next
}
