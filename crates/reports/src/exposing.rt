// The mean exposure of a trace, as text.
ghost use Rattle.std.specs.Prelude.{◌≡◌, ◌≤◌, length, take};
ghost use Rattle.text.specs.Cursor.{Puts};
ghost use Rattle.reports.specs.Exposure.{exposure_line, report_of};

use event::numbers;
use text::Cursor;

// No report is longer: the words of a mean and three numbers, were these of ten digits.
pub const LONGEST: usize = 42;

// `exposure 2 24 48`
fn put_mean(text: &mut Cursor<'_>, quotient: u16, remainder: u16, divisor: u16)
    ensures { Puts (exposure_line quotient remainder divisor) text.old text.new }
{
    lines::phrase(
        text,
        b"exposure ",
        quotient as u32,
        b" ",
        remainder as u32,
        b" ",
    );
    text.number(divisor as u32);
    text.put(b"\n");
}

// Puts the mean exposure of the trace or the refusal, or as much as there is room for.
fn put_report(trace: &[u8], text: &mut Cursor<'_>)
    ensures { Puts (report_of trace.now) text.old text.new }
{
    match trace_exposure::exposure(trace) {
        Err(r) => lines::refusal(text, numbers::number(r.refusal), r.at),
        Ok(m) => put_mean(text, m.quotient, m.remainder, m.divisor),
    }
}

// Puts the mean exposure of the trace or the refusal at the start of the text, where there is room for every report, and answers the length.
pub fn report(trace: &[u8], text: &mut [u8; LONGEST]) -> usize
    ensures upper_bound { (result ≤ length text.new) × (result ≡ length (take result text.new)) }
    ensures text_after { take result text.new ≡ report_of trace.now }
{
    let mut printed = Cursor::new(text, 0);
    put_report(trace, &mut printed);
    printed.place()
}
