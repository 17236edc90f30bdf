// The trailer of a trace: the last 16 bytes. Numbers are least significant byte first.
ghost use Rattle.std.specs.Prelude.{◌≡◌, eqb, length};
ghost use Rattle.trailer.specs.Trailer.{has_mark, trailer_from, trailer_of, bad_window, end_of, opened_of};

use crate::Trailer;
use event::Refusal;

// Whether the trailer starts with the mark.
fn has_mark(t: &[u8]) -> bool
    ensures { result ≡ has_mark t.now }
{
    t.starts_with(b"PTRA")
}

// The trailer after its mark.
fn read_trailer(t: &[u8]) -> Trailer
    ensures { result ≡ trailer_from t.now }
{
    Trailer {
        offset: codec::u32_at(t, 4),
        count: codec::u32_at(t, 8),
        lines: codec::u16_at(t, 12),
        zero: codec::u16_at(t, 14),
    }
}

// The trailer after its mark, whatever the mark; of fewer than 16 bytes those that lack count as 0.
pub fn trailer(s: &[u8]) -> Trailer
    ensures { result ≡ trailer_of s.now }
{
    let at = s.len().saturating_sub(16);
    read_trailer(&s[at..])
}

// Whether the lines are no window's, or the zero field is set.
fn is_bad_window(t: Trailer) -> bool
    ensures { result ≡ bad_window t }
{
    window::check_lines(t.lines).is_err() || t.zero != 0
}

// Whether the records and the trailer end where the trace ends: offset + 12 × count + 16 is the length.
fn ends_at(t: Trailer, len: usize) -> bool
    ensures { result ≡ eqb (end_of t) len }
{
    (t.offset as usize) + 12 * (t.count as usize) + 16 == len
}

// The trailer, or the first of the limits 1 to 5 that the trace breaks.
pub fn open(s: &[u8]) -> Result<Trailer, Refusal>
    ensures { result ≡ opened_of s.now }
{
    let Some(at) = s.len().checked_sub(16) else {
        return Err(Refusal::TraceTooShort);
    };
    if 65536 < s.len() {
        return Err(Refusal::TraceTooLong);
    }
    let bytes = &s[at..];
    if !has_mark(bytes) {
        return Err(Refusal::MarkDiffers);
    }
    let t = read_trailer(bytes);
    if is_bad_window(t) {
        return Err(Refusal::BadLines);
    }
    if !ends_at(t, s.len()) {
        return Err(Refusal::LengthDiffers);
    }
    Ok(t)
}
