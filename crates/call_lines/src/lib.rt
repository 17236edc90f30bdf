// What `engine_runs` and `page_runs` print of a call: the record that it gives, and its answer. A write that fails is passed over.
#![tactic(auto)]

use replies::Numbers;
use std::io::Write;

// The words, and the numbers of a record in 12 bytes: its kind, the zero byte, both ranges and the site.
pub fn record<W: Write>(out: &mut W, text: &[u8], bytes: &[u8]) {
    let _ = out.write_all(text);
    let kind = codec::byte_at(bytes, 0);
    let zero = codec::byte_at(bytes, 1);
    let _ = write!(out, "{kind} {zero}");
    for at in (2..12).step_by(2) {
        let number = codec::u16_at(bytes, at);
        let _ = write!(out, " {number}");
    }
}

// An answer by its numbers: `: refused 9 at 0`, or its values behind the colon, a blank before each. The line goes on.
pub fn reply<W: Write>(out: &mut W, n: Numbers) {
    let _ = write!(out, ":");
    if n.number != 0 {
        let _ = write!(out, " refused {} at {}", n.number, n.at);
    }
    for value in n.values.iter().take(n.count as usize) {
        let _ = write!(out, " {value}");
    }
}

// The same, and the line's end.
pub fn answered<W: Write>(out: &mut W, n: Numbers) {
    reply(out, n);
    let _ = writeln!(out);
}
