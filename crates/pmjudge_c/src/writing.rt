// The writer of traces for programs in C or Rust: three calls. What each answers, and what the caller has to see to (no null pointer, no
// byte shared), stands in include/pmjudge.h.
ghost use Rattle.std.specs.Prelude.{◌≡◌};
ghost use Rattle.file.specs.Write.{started_of, area_started, bytes_written_of, area_bytes_written, closed_of, area_closed};
ghost use Rattle.file.specs.Reply.{start_reply, written_reply, closed_reply};
ghost use Rattle.replies.specs.Numbers.{in_bits32};
ghost use Rattle.pmjudge_c.specs.Writer.{with_length, two_numbers, writer_numbers, writer_from, after_start, after_check, after_event, event_bytes};

use event::{Range, Refusal};
use file::Writer;
use replies::Numbers;

// The numbers of an answer that has no value, or a length.
// stays: beside `first_values`, since a writer's answer in C has no number of a record (include/pmjudge.h)
fn length_only(n: Numbers) -> [u32; 2]
    ensures { result ≡ with_length n }
{
    [u32::from(n.number), n.values[0]]
}

// A writer as four numbers.
// stays: a From of [u32; 4] is refused here (orphan-impl, neither type is this crate's), and four numbers are a writer for C alone
fn numbers_of(w: Writer) -> [u32; 4]
    ensures { result ≡ writer_numbers w }
{
    [u32::from(w.lines), w.offset, w.count, u32::from(w.depth)]
}

// Four numbers as a writer.
fn writer_of(n: &[u32; 4]) -> Writer
    ensures { result ≡ writer_from n.now }
{
    Writer {
        lines: (n[0] % 65536) as u16,
        offset: n[1],
        count: n[2],
        depth: (n[3] % 65536) as u16,
    }
}

// The numbers of a writer put in the place of others, where the check passed.
fn put_numbers(n: &mut [u32; 4], c: Result<(), Refusal>, w: Writer)
    ensures { n.new ≡ after_check c w n.old }
{
    if c.is_ok() {
        *n = numbers_of(w);
    }
}

// The numbers of the writer that a start handed over.
fn put_started(n: &mut [u32; 4], s: Result<Writer, Refusal>)
    ensures { n.new ≡ after_start s n.old }
{
    if let Ok(w) = s {
        *n = numbers_of(w);
    }
}

// Starts a file.
#[unsafe(no_mangle)]
pub extern "C" fn pmjudge_writer_start(
    area: &mut [u8],
    preamble: &[u8],
    lines: u16,
    writer: &mut [u32; 4],
    answer: &mut [u32; 2],
)
    ensures answer_after { answer.new ≡ two_numbers (start_reply (started_of area.old preamble.now lines)) }
    ensures writer_after { writer.new ≡ after_start (started_of area.old preamble.now lines) writer.old }
    ensures area_after { area.new ≡ area_started area.old preamble.now lines }
{
    let s = writer::start(area, preamble, lines);
    put_started(writer, s);
    *answer = length_only(replies::of(s));
}

// Writes an event, which comes as numbers.
// stays: numbers, since it is called from C
#[unsafe(no_mangle)]
pub extern "C" fn pmjudge_writer_event(
    area: &mut [u8],
    writer: &mut [u32; 4],
    kind: u8,
    a: u16,
    a_length: u16,
    b: u16,
    b_length: u16,
    site: u16,
    answer: &mut [u32; 2],
)
    ensures answer_after { answer.new ≡
        two_numbers (written_reply (bytes_written_of area.old (writer_from writer.old) (event_bytes kind a a_length b b_length site))) }
    ensures writer_after { writer.new ≡
        after_event (bytes_written_of area.old (writer_from writer.old) (event_bytes kind a a_length b b_length site))
        writer.old }
    ensures area_after { area.new ≡
        area_bytes_written area.old (writer_from writer.old) (event_bytes kind a a_length b b_length site) }
{
    let first = Range {
        address: a,
        length: a_length,
    };
    let second = Range {
        address: b,
        length: b_length,
    };
    let p = records::read_fields(kind, 0, first, second, site);
    let mut w = writer_of(writer);
    let c = writer::write_parsed(area, &mut w, p);
    put_numbers(writer, c, w);
    *answer = length_only(replies::of(c));
}

// Closes the file.
#[unsafe(no_mangle)]
pub extern "C" fn pmjudge_writer_close(area: &mut [u8], writer: &[u32; 4], answer: &mut [u32; 2])
    ensures answer_after { answer.new ≡ two_numbers (closed_reply (in_bits32 (closed_of area.old (writer_from writer.now)))) }
    ensures area_after { area.new ≡ area_closed area.old (writer_from writer.now) }
{
    let c = writer::close(area, writer_of(writer));
    *answer = length_only(replies::of_closed(c));
}
