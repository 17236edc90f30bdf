// The limits on a start, an event and a closing of a trace file, and the place behind its last record.
#![tactic(auto)]

ghost use Rattle.std.specs.Prelude.{◌≡◌, [], ◌∷◌, ◌+◌, ltb};
ghost use Rattle.records.specs.Record.{record_size};
ghost use Rattle.history.specs.Refused.{first_broken};
ghost use Rattle.trailer.specs.Trailer.{trailer_size, most_bytes};
ghost use Rattle.file.specs.Limits.{room_limit, start_limits};
ghost use Rattle.file.specs.Write.{records_end, write_check};

use event::{Event, Refusal};
use file::Writer;

// Behind the last record.
pub fn records_end(w: Writer) -> usize
    ensures { result ≡ records_end w }
{
    (w.offset as usize) + 12 * (w.count as usize)
}

// The limit 2: whether a file whose trailer stands behind this place is too long.
fn is_too_long(end: usize) -> bool
    ensures { result ≡ ltb most_bytes (end + trailer_size) }
{
    65536 - 16 < end
}

// The limit 15: whether the area has room for bytes that end at this place.
pub fn check_room(room: usize, end: usize) -> Result<(), Refusal>
    ensures { result ≡ first_broken (room_limit room end ∷ []) }
{
    if room < end {
        Err(Refusal::FileAreaTooShort)
    } else {
        Ok(())
    }
}

// The limits on a start: 4, 2, 15.
pub fn check_start(room: usize, preamble: usize, lines: u16) -> Result<(), Refusal>
    ensures { result ≡ first_broken (start_limits room preamble lines) }
{
    window::check_lines(lines)?;
    if is_too_long(preamble) {
        return Err(Refusal::TraceTooLong);
    }
    check_room(room, preamble)
}

// The limit 2 on an event: whether the file with one record more is too long.
pub fn is_full(w: Writer) -> bool
    ensures { result ≡ ltb most_bytes (records_end w + record_size + trailer_size) }
{
    is_too_long(records_end(w) + 12)
}

// The limits on an event: 2; 9, 18, 10 to 12; 15.
pub fn check_write(room: usize, w: Writer, e: Event) -> Result<(), Refusal>
    ensures { result ≡ write_check room w e }
{
    if is_full(w) {
        return Err(Refusal::TraceTooLong);
    }
    limits::check_event(w.lines, w.count as u16, w.depth, e)?;
    check_room(room, records_end(w) + 12)
}
