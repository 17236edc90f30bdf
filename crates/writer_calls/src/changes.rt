// The bytes that differ between two slices, printed behind an answer, and the end of its line.
ghost use Rattle.std.specs.Prelude.{◌≡◌, length};
ghost use Rattle.writer_calls.specs.Changes.{first_change, last_change, sum_of};

use std::io::Write;

// The place of the first byte of `after` that differs from that of `before`; its length where none does.
#[tactic(auto, using(crate::proofs::Differences::first_same))]
fn first_change(before: &[u8], after: &[u8]) -> usize
    ensures { result ≡ first_change (length after.now) 0 before.now after.now }
{
    for i in 0..after.len() {
        if codec::byte_at(before, i) != after[i] {
            return i;
        }
    }
    after.len()
}

// The place behind the last such byte; 0 where there is none.
fn last_change(before: &[u8], after: &[u8]) -> usize
    ensures { result ≡ last_change (length after.now) before.now after.now }
{
    for i in (0..after.len()).rev() {
        if codec::byte_at(before, i) != after[i] {
            return i + 1;
        }
    }
    0
}

// A sum of bytes: each is added to 31 times the sum before it, in 16 bits.
pub fn sum(s: &[u8]) -> u16
    ensures { result ≡ sum_of 0 s.now }
{
    s.iter().fold(0u16, |x, b| {
        x.wrapping_mul(31).wrapping_add(u16::from(*b))
    })
}

// Bytes in decimal, a blank before each.
fn bytes<W: Write>(out: &mut W, s: &[u8]) {
    for b in s {
        let _ = write!(out, " {b}");
    }
}

// What changed: nothing, up to 16 bytes as they are, or where more bytes start and end, and their sum.
pub fn print<W: Write>(out: &mut W, before: &[u8], after: &[u8]) {
    let from = first_change(before, after);
    let to = last_change(before, after);
    if from < to && to <= after.len() {
        let part = &after[from..to];
        if part.len() <= 16 {
            let _ = write!(out, " at {from}:");
            bytes(out, part);
        } else {
            let _ = write!(out, " at {from} to {} sum {}", to - 1, sum(part));
        }
    }
    let _ = writeln!(out);
}
