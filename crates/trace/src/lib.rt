// The records of a trace: the middle part of its slice, from the offset up to the trailer, and what refuses them one after another.
#![tactic(auto)]

ghost use Rattle.std.specs.Prelude.{◌≡◌, ◌*◌, drop};
ghost use Rattle.records.specs.Record.{record_size, parsed};
ghost use Rattle.trace.specs.Records.{record_part};

use event::{Record, Refusal};

// The bytes from the offset up to the trailer; none where the offset is past them.
pub fn part(s: &[u8], offset: u32) -> &[u8]
    ensures { result.now ≡ record_part offset s.now }
{
    let to = s.len().saturating_sub(16);
    s.get(offset as usize..to).unwrap_or(&[])
}

// The bytes from a place on; none past the end.
fn tail(s: &[u8], at: usize) -> &[u8]
    ensures { result.now ≡ drop at s.now }
{
    s.get(at..).unwrap_or(&[])
}

// The record with so many before it, or the refusal 6 or 7.
pub fn record_at(records: &[u8], before: u32) -> Result<Record, Refusal>
    ensures { result ≡ parsed (drop (record_size * before) records.now) }
{
    let at = 12 * (before as usize);
    records::read_record(tail(records, at))
}
