// Numbers as bytes, least significant byte first, the bytes of a finding, written and read, and bytes put at a place.
#![tactic(auto)]

ghost use Rattle.std.specs.Prelude.{◌≡◌, ◌+◌, ◌*◌, get_or};
ghost use Rattle.codec.specs.Codec.{u16_at, u32_at, finding_bytes, fields_at};
ghost use Rattle.codec.specs.Placed.{placed};

use event::{Fields, Finding};

// The byte at a place, 0 past the end.
pub fn byte_at(s: &[u8], at: usize) -> u8
    ensures { result ≡ get_or s.now at 0 }
{
    s.get(at).copied().unwrap_or(0)
}

// The u16 at a place; bytes past the end count as 0.
pub fn u16_at(s: &[u8], at: usize) -> u16
    ensures { result ≡ u16_at s.now at }
{
    if at < s.len() {
        u16::from_le_bytes([byte_at(s, at), byte_at(s, at + 1)])
    } else {
        0
    }
}

// The u32 at a place; bytes past the end count as 0.
pub fn u32_at(t: &[u8], at: u8) -> u32
    ensures { result ≡ u32_at t.now at }
{
    let i = at as usize;
    u32::from_le_bytes([
        byte_at(t, i),
        byte_at(t, i + 1),
        byte_at(t, i + 2),
        byte_at(t, i + 3),
    ])
}

// A finding with its site, as 12 bytes.
pub fn finding_bytes(f: Finding, site: u16) -> [u8; 12]
    ensures { result ≡ finding_bytes f site }
{
    let x = Fields::from(f);
    let mut bytes = [0u8; 12];
    bytes[0] = x.kind;
    bytes[2..4].copy_from_slice(&x.lost.to_le_bytes());
    bytes[4..6].copy_from_slice(&x.kept.to_le_bytes());
    bytes[6..8].copy_from_slice(&x.moment.to_le_bytes());
    bytes[8..10].copy_from_slice(&x.store.to_le_bytes());
    bytes[10..].copy_from_slice(&site.to_le_bytes());
    bytes
}

// The kind and the fields of the finding at a place; bytes past the end count as 0.
pub fn fields_at(s: &[u8], at: u32) -> Fields
    ensures { result ≡ fields_at s.now at }
{
    let i = at as usize;
    Fields {
        kind: byte_at(s, i),
        lost: u16_at(s, i + 2),
        kept: u16_at(s, i + 4),
        moment: u16_at(s, i + 6),
        store: u16_at(s, i + 8),
    }
}

// Bytes put at a place of a slice; where they do not fit, the slice stays as it was.
pub fn put(slice: &mut [u8], at: usize, bytes: &[u8])
    ensures { slice.new ≡ placed at bytes.now slice.old }
{
    if slice.len() < bytes.len() || slice.len() - bytes.len() < at {
        return;
    }
    // stays: a loop, since `copy_from_slice` of a length that is not known here calls memmove, which the archive for C would have to find outside.
    for i in 0..bytes.len() {
        slice[at + i] = bytes[i];
    }
}
