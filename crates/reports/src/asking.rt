// The persist interval of a byte after a trace, as text.
ghost use Rattle.std.specs.Prelude.{◌≡◌, ◌++◌, ◌≤◌, length, take};
ghost use Rattle.text.specs.Text.{ascii, decimal};
ghost use Rattle.text.specs.Cursor.{Puts};
ghost use Rattle.interval_lines.specs.Lines.{interval_text};
ghost use Rattle.reports.specs.Interval.{trace_in, report_of};

use event::{NamedInterval, numbers};
use text::Cursor;
use trace_interval::Sites;

// No report is longer: the words of a closed interval and of three sites, and twelve numbers, were these of ten digits.
pub const LONGEST: usize = 200;

// `byte 64 ..`
fn put_known(text: &mut Cursor<'_>, byte: u16, i: NamedInterval, s: Sites)
    ensures { Puts (ascii "byte " ++ decimal byte ++ ascii " " ++ interval_text i s) text.old text.new }
{
    text.put(b"byte ");
    text.number(byte as u32);
    text.put(b" ");
    interval_lines::put_interval(text, i, s);
}

// The trace, behind the two bytes of the byte's number.
fn trace_in(input: &[u8]) -> &[u8]
    ensures { result.now ≡ trace_in input.now }
{
    if input.len() < 2 {
        return &input[..0];
    }
    &input[2..]
}

// Puts the report, or as much as there is room for.
fn put_report(input: &[u8], text: &mut Cursor<'_>)
    ensures { Puts (report_of input.now) text.old text.new }
{
    let byte = codec::u16_at(input, 0);
    match trace_interval::interval(trace_in(input), byte) {
        Err(r) => lines::refusal(text, numbers::number(r.refusal), r.at),
        Ok(k) => put_known(text, byte, k.interval, k.sites),
    }
}

// Puts the report at the start of the text, where there is room for every report, and answers the length.
pub fn report(input: &[u8], text: &mut [u8; LONGEST]) -> usize
    ensures upper_bound { (result ≤ length text.new) × (result ≡ length (take result text.new)) }
    ensures text_after { take result text.new ≡ report_of input.now }
{
    let mut printed = Cursor::new(text, 0);
    put_report(input, &mut printed);
    printed.place()
}
