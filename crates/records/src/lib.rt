// A record read, from its bytes or from the numbers in them. Numbers are least significant byte first.
#![tactic(auto)]

ghost use Rattle.std.specs.Prelude.{◌≡◌, ◌||◌, ◌+◌, ◌≤◌, length};
ghost use Rattle.codec.specs.Codec.{u16_at};
ghost use Rattle.records.specs.Kind.{kind_number, Decodes};
ghost use Rattle.records.specs.Record.{range_at, uses_a, uses_b, is_zero, is_clear, event_of, parsed, parsed_fields, padded};

use event::{Event, Range, Record, Refusal};

// The eight kinds of event, with their numbers.
#[derive(Clone, Copy)]
enum Kind {
    Store = 1,
    WriteBack = 2,
    Fence = 3,
    Begin = 4,
    Log = 5,
    End = 6,
    Persisted = 7,
    Ordered = 8,
}

// The kind with a number, or the refusal 6.
impl TryFrom<u8> for Kind {
    type Error = Refusal;

    ghost try_from_gives = { Decodes };

    fn try_from(number: u8) -> Result<Self, Refusal> {
        match number {
            1 => Ok(Kind::Store),
            2 => Ok(Kind::WriteBack),
            3 => Ok(Kind::Fence),
            4 => Ok(Kind::Begin),
            5 => Ok(Kind::Log),
            6 => Ok(Kind::End),
            7 => Ok(Kind::Persisted),
            8 => Ok(Kind::Ordered),
            _ => Err(Refusal::UnknownKind),
        }
    }
}

// The u16 at a place, both of whose bytes are there.
// stays: slower (the bar stands in docs/PERFORMANCE.md): with codec::u16_at, which tests the length, in its place small stores take 1,417,151 instructions against 1,393,526;
// 1,526,774 if it reads what first_chunk gives, and 1,550,026 if the padding of short slices is left to it
fn u16_in(s: &[u8], at: usize) -> u16
    requires { at + 2 ≤ length s.now }
    ensures { result ≡ u16_at s.now at }
{
    u16::from_le_bytes([s[at], s[at + 1]])
}

// The range at a place, all of whose bytes are there.
fn range_in(s: &[u8], at: usize) -> Range
    requires { at + 4 ≤ length s.now }
    ensures { result ≡ range_at s.now at }
{
    Range {
        address: u16_in(s, at),
        length: u16_in(s, at + 2),
    }
}

// Whether both fields of a range are 0.
fn is_zero(r: Range) -> bool
    ensures { result ≡ is_zero r }
{
    r == Range::default()
}

// Whether the kind has a range A.
fn uses_a(kind: Kind) -> bool
    ensures { result ≡ uses_a (kind_number kind) }
{
    !matches!(kind, Kind::Fence | Kind::Begin | Kind::End)
}

// Whether the kind has a range B.
fn uses_b(kind: Kind) -> bool
    ensures { result ≡ uses_b (kind_number kind) }
{
    matches!(kind, Kind::Ordered)
}

// Whether a range is used or both its fields are 0.
fn used_or_zero(used: bool, r: Range) -> bool
    ensures { result ≡ (used || is_zero r) }
{
    used || is_zero(r)
}

// Whether the zero byte and the fields that the kind lacks are 0.
fn is_clear(kind: Kind, zero: u8, a: Range, b: Range) -> bool
    ensures { result ≡ is_clear (kind_number kind) zero a b }
{
    zero == 0 && used_or_zero(uses_a(kind), a) && used_or_zero(uses_b(kind), b)
}

// The event of a kind with these ranges; those that the kind lacks are dropped.
fn event_of(kind: Kind, a: Range, b: Range) -> Event
    ensures { result ≡ event_of (kind_number kind) a b }
{
    match kind {
        Kind::Store => Event::Store(a),
        Kind::WriteBack => Event::WriteBack(a),
        Kind::Fence => Event::Fence,
        Kind::Begin => Event::Begin,
        Kind::Log => Event::Log(a),
        Kind::End => Event::End,
        Kind::Persisted => Event::Persisted(a),
        Kind::Ordered => Event::Ordered(a, b),
    }
}

// The first 12 bytes of a slice, 0 past its end.
pub fn padded(s: &[u8]) -> [u8; 12]
    ensures { result ≡ padded 12 s.now }
{
    let mut t = [0u8; 12];
    for i in 0..12 {
        t[i] = codec::byte_at(s, i);
    }
    t
}

// The record of these numbers, or the refusal 6 or 7.
// stays: the kind as a number: what comes in is a byte of a record or a number from C, and the clause promises an answer for each
pub fn read_fields(kind: u8, zero: u8, a: Range, b: Range, site: u16) -> Result<Record, Refusal>
    ensures { result ≡ parsed_fields kind zero a b site }
{
    let kind = Kind::try_from(kind)?;
    if !is_clear(kind, zero, a, b) {
        return Err(Refusal::FieldSet);
    }
    Ok(Record {
        event: event_of(kind, a, b),
        site,
    })
}

// The record in 12 bytes, or the refusal 6 or 7.
fn read_whole(s: &[u8]) -> Result<Record, Refusal>
    requires { 12 ≤ length s.now }
    ensures { result ≡ parsed s.now }
{
    let a = range_in(s, 2);
    let b = range_in(s, 6);
    let site = u16_in(s, 10);
    read_fields(s[0], s[1], a, b, site)
}

// The record in the first 12 bytes of a slice, or the refusal 6 or 7. Bytes past the end count as 0.
pub fn read_record(s: &[u8]) -> Result<Record, Refusal>
    ensures { result ≡ parsed s.now }
{
    if s.len() < 12 {
        let t = padded(s);
        return read_whole(&t);
    }
    read_whole(s)
}
