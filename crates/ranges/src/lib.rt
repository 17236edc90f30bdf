// Ranges of bytes: how many lines one touches, whether two share a byte, and the limits 9 and 18.
#![tactic(auto)]

ghost use Rattle.std.specs.Prelude.{◌≡◌};
ghost use Rattle.ranges.specs.Ranges.{range_end, is_empty, line_count, is_past, ranges_of, any_range, shares_byte, ranges_share, range_check};

use event::{Event, Range, Refusal};

// The address after the last byte of a range.
pub fn range_end(r: Range) -> u32
    ensures { result ≡ range_end r }
{
    (r.address as u32) + (r.length as u32)
}

// Whether the range has no byte.
pub fn is_empty(r: Range) -> bool
    ensures { result ≡ is_empty r }
{
    r.length == 0
}

// How many lines the range touches.
pub fn line_count(r: Range) -> u16
    ensures { result ≡ line_count r }
{
    if r.length == 0 {
        return 0;
    }
    let last = (range_end(r) - 1) / 64;
    let first = (r.address as u32) / 64;
    (last + 1 - first) as u16
}

// Whether the range runs past the window.
pub fn is_past(lines: u16, r: Range) -> bool
    ensures { result ≡ is_past lines r }
{
    window::window_bytes(lines) < range_end(r)
}

// Whether a range that the event uses runs past the window.
fn any_past(lines: u16, e: Event) -> bool
    ensures { result ≡ any_range (is_past lines) (ranges_of e) }
{
    match e {
        Event::Store(a) | Event::WriteBack(a) | Event::Log(a) | Event::Persisted(a) => {
            is_past(lines, a)
        }
        Event::Ordered(a, b) => is_past(lines, a) || is_past(lines, b),
        Event::Fence | Event::Begin | Event::End => false,
    }
}

// Whether two ranges share a byte.
fn shares_byte(a: Range, b: Range) -> bool
    ensures { result ≡ shares_byte a b }
{
    let some = !is_empty(a) & !is_empty(b);
    some & ((a.address as u32) < range_end(b)) & ((b.address as u32) < range_end(a))
}

// Whether the event is an ordered whose A and B share a byte.
fn ranges_share(e: Event) -> bool
    ensures { result ≡ ranges_share e }
{
    match e {
        Event::Ordered(a, b) => shares_byte(a, b),
        _ => false,
    }
}

// The limits 9 and 18 on the ranges that an event uses.
pub fn check_ranges(lines: u16, e: Event) -> Result<(), Refusal>
    ensures { result ≡ range_check lines e }
{
    if any_past(lines, e) {
        Err(Refusal::PastWindow)
    } else if ranges_share(e) {
        Err(Refusal::SharedByte)
    } else {
        Ok(())
    }
}
