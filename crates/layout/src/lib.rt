// A record and a trailer as bytes. Numbers are least significant byte first.
#![tactic(auto)]

ghost use Rattle.std.specs.Prelude.{◌≡◌};
ghost use Rattle.records.specs.Record.{fields_bytes, range_a, range_b, record_bytes};
ghost use Rattle.trailer.specs.Trailer.{trailer_with};

use event::{Event, Range, Record, numbers};

// The range A of an event; its fields are 0 where the event has none.
fn range_a(e: Event) -> Range
    ensures { result ≡ range_a e }
{
    match e {
        Event::Store(a) | Event::WriteBack(a) | Event::Log(a) | Event::Persisted(a) => a,
        Event::Ordered(a, _) => a,
        Event::Fence | Event::Begin | Event::End => Range::default(),
    }
}

// The range B of an event; its fields are 0 where the event has none.
fn range_b(e: Event) -> Range
    ensures { result ≡ range_b e }
{
    match e {
        Event::Ordered(_, b) => b,
        _ => Range::default(),
    }
}

// The fields of a record as 12 bytes, whatever they say.
// stays: the kind as the number that is laid down: what laws say of `fields_bytes` holds for every number
fn fields_bytes(kind: u8, a: Range, b: Range, site: u16) -> [u8; 12]
    ensures { result ≡ fields_bytes kind a b site }
{
    let mut bytes = [0u8; 12];
    bytes[0] = kind;
    bytes[2..4].copy_from_slice(&a.address.to_le_bytes());
    bytes[4..6].copy_from_slice(&a.length.to_le_bytes());
    bytes[6..8].copy_from_slice(&b.address.to_le_bytes());
    bytes[8..10].copy_from_slice(&b.length.to_le_bytes());
    bytes[10..].copy_from_slice(&site.to_le_bytes());
    bytes
}

// A record as 12 bytes.
pub fn record_bytes(r: Record) -> [u8; 12]
    ensures { result ≡ record_bytes r.event r.site }
{
    let e = r.event;
    let a = range_a(e);
    let b = range_b(e);
    fields_bytes(numbers::kind(e), a, b, r.site)
}

// A trailer as 16 bytes: the mark, and where the first record stands, how many there are, and the window's lines.
pub fn trailer_bytes(offset: u32, count: u32, lines: u16) -> [u8; 16]
    ensures { result ≡ trailer_with offset count lines }
{
    let mut bytes = [0u8; 16];
    bytes[..4].copy_from_slice(b"PTRA");
    bytes[4..8].copy_from_slice(&offset.to_le_bytes());
    bytes[8..12].copy_from_slice(&count.to_le_bytes());
    bytes[12..14].copy_from_slice(&lines.to_le_bytes());
    bytes
}
