// The writer of a trace file, over an area that the caller lends and does not write to in between.
//
// stays: area and writer are lent side by side, since a call from C brings them apart, each time anew (include/pmjudge.h).
#![tactic(auto)]

ghost use Rattle.std.specs.Prelude.{◌≡◌, ◌<◌, Ok};
ghost use Rattle.history.specs.Refused.{refusal_by};
ghost use Rattle.file.specs.Write.{view_of, started_of, area_started, writer_after, written_of, area_written};
ghost use Rattle.file.specs.Write.{parsed_written_of, area_parsed_written, bytes_written_of, area_bytes_written, closed_of, area_closed};

use event::{Event, Record, Refusal};
use file::Writer;

// Starts a file: its preamble goes to the area's start. Refused by the first of 4, 2, 15 that applies, and the area as it was.
pub fn start(area: &mut [u8], preamble: &[u8], lines: u16) -> Result<Writer, Refusal>
    ensures value { result ≡ started_of area.old preamble.now lines }
    ensures area_after { area.new ≡ area_started area.old preamble.now lines }
{
    file_limits::check_start(area.len(), preamble.len(), lines)?;
    codec::put(area, 0, preamble);
    Ok(Writer {
        lines,
        offset: preamble.len() as u32,
        count: 0,
        depth: 0,
    })
}

// The writer after an event that no limit refuses.
fn next(w: Writer, e: Event) -> Writer
    requires passed { refusal_by (view_of w) e ≡ Ok tt }
    requires room { w.count < 65536 }
    ensures { result ≡ writer_after w e }
{
    let depth = match e {
        Event::Begin => w.depth + 1,
        Event::End => w.depth - 1,
        _ => w.depth,
    };
    Writer {
        count: w.count + 1,
        depth,
        ..w
    }
}

// Writes an event: its record goes behind the last one. Refused by the first of 2, 9, 18, 10, 11, 12, 15 that applies, and writer and
// area as they were.
pub fn write(area: &mut [u8], w: &mut Writer, r: Record) -> Result<(), Refusal>
    ensures value { result ≡ (written_of area.old w.old r).check }
    ensures writer_after { w.new ≡ (written_of area.old w.old r).writer }
    ensures area_after { area.new ≡ area_written area.old w.old r }
{
    file_limits::check_write(area.len(), *w, r.event)?;
    let bytes = layout::record_bytes(r);
    codec::put(area, file_limits::records_end(*w), &bytes);
    *w = next(*w, r.event);
    Ok(())
}

// Writes an event as it was read: what refused its reading, 6 or 7, is looked at after 2 and before 9.
pub fn write_parsed(
    area: &mut [u8],
    w: &mut Writer,
    p: Result<Record, Refusal>,
) -> Result<(), Refusal>
    ensures value { result ≡ (parsed_written_of area.old w.old p).check }
    ensures writer_after { w.new ≡ (parsed_written_of area.old w.old p).writer }
    ensures area_after { area.new ≡ area_parsed_written area.old w.old p }
{
    if file_limits::is_full(*w) {
        return Err(Refusal::TraceTooLong);
    }
    write(area, w, p?)
}

// Writes an event that comes as the bytes of a record.
pub fn write_bytes(area: &mut [u8], w: &mut Writer, bytes: &[u8]) -> Result<(), Refusal>
    ensures value { result ≡ (bytes_written_of area.old w.old bytes.now).check }
    ensures writer_after { w.new ≡ (bytes_written_of area.old w.old bytes.now).writer }
    ensures area_after { area.new ≡ area_bytes_written area.old w.old bytes.now }
{
    write_parsed(area, w, records::read_record(bytes))
}

// Closes the file: the trailer goes behind the last record. Refused by 13 or else by 15, and the area as it was. The writer does not
// change: an event written afterwards takes the trailer's place.
pub fn close(area: &mut [u8], w: Writer) -> Result<usize, Refusal>
    ensures value { result ≡ closed_of area.old w }
    ensures area_after { area.new ≡ area_closed area.old w }
{
    if w.depth != 0 {
        return Err(Refusal::TransactionOpen);
    }
    let at = file_limits::records_end(w);
    file_limits::check_room(area.len(), at + 16)?;
    let bytes = layout::trailer_bytes(w.offset, w.count, w.lines);
    codec::put(area, at, &bytes);
    Ok(at + 16)
}
