// A reader read into a slice, and a program's standard streams: it complains on standard error where its input cannot be read or its output
// cannot be written, with its name in front.
#![tactic(auto)]

ghost use Rattle.std.specs.Prelude.{◌≡◌, ◌≤◌, ℕ, length, take, IfOk, OnErr, MatchResult};
ghost use Rattle.stdio.specs.Report.{Reports};

use std::convert::AsSlice;
use std::io::{Read, Stderr, Stdin, Stdout, Write};

// A read failed, after so many bytes.
#[derive(Clone, Copy, Debug, PartialEq, Eq)]
pub struct ReadFailed {
    pub len: usize,
}

// Reads until the buffer is full, the input ends or a read fails, and answers how many bytes came.
fn read_all<R: Read>(from: &mut R, buf: &mut [u8]) -> Result<usize, ReadFailed>
    ensures { MatchResult result (λ len. len ≤ length buf.new) (λ e. e.len ≤ length buf.new) }
{
    // stays: std's `read_exact` loses how many bytes came before the end, and its `read_to_end` needs a heap.
    let mut done = 0;
    while done < buf.len() {
        match from.read(&mut buf[done..]) {
            Ok(0) => break,
            Ok(len) => done += len,
            Err(_) => return Err(ReadFailed { len: done }),
        }
    }
    Ok(done)
}

// The same, and how many bytes came: a read that fails counts as the input's end.
pub fn read_full<R: Read>(from: &mut R, buf: &mut [u8]) -> usize
    ensures { result ≤ length buf.new }
{
    read_all(from, buf).unwrap_or_else(|e| e.len)
}

// A program's standard streams, and its name.
#[derive(Drop)]
pub struct Console<'a, R, W, E> {
    pub input: R,
    pub output: W,
    pub errors: E,
    pub name: &'a [u8],
}

impl<'a> Console<'a, Stdin, Stdout, Stderr> {
    // The streams of the process.
    pub fn new(rt: &HostRuntime, name: &'a [u8]) -> Self
        ensures { result.name.now ≡ name.now }
    {
        Console {
            input: rt.stdin(),
            output: rt.stdout(),
            errors: rt.stderr(),
            name,
        }
    }
}

impl<R: Read, W: Write, E: Write> Console<'_, R, W, E> {
    // `pmjudge: standard input cannot be read`
    fn complain(&mut self, words: &[u8]) {
        let _ = self.errors.write_all(self.name);
        let _ = self.errors.write_all(words);
    }

    // Reads until the buffer is full, the input ends or a read fails, and complains where a read failed.
    pub fn read_input(&mut self, buf: &mut [u8]) -> Result<usize, ReadFailed>
        ensures upper_bound { MatchResult result (λ len. len ≤ length buf.new) (λ e. e.len ≤ length buf.new) }
        ensures counted { MatchResult result (λ len. len ≡ length (take len buf.new))
            (λ e. e.len ≡ length (take e.len buf.new)) }
    {
        let read = read_all(&mut self.input, buf);
        if read.is_err() {
            self.complain(b": standard input cannot be read\n");
        }
        read
    }

    // Writes the bytes, and complains where they cannot be written.
    pub fn write_output(&mut self, bytes: &[u8]) {
        if self.output.write_all(bytes).is_err() {
            self.complain(b": cannot write to standard output\n");
        }
    }

    // A program: reads its input into the buffer, has the report of it put at the start of the text, and writes so much of the text as the
    // report answers, or all of it where it has less. Where a read fails it writes nothing.
    pub fn run<const N: usize, T: AsSlice<u8>, F: FnOnce(&[u8], &mut T) -> usize>(
        &mut self,
        buf: &mut [u8; N],
        text: &mut T,
        report: F,
    ) -> Result<usize, ReadFailed>
        requires { F.IsAlwaysCallable report }
        ensures reported { IfOk result (λ n. (len : ℕ) × Reports F.FnOnce report (take len buf.new) text.old n text.new) }
        ensures kept { OnErr result (text.new ≡ text.old) }
    {
        let len = self.read_input(buf)?;
        let n = report(&buf[..len], text);
        let bytes = text.as_slice();
        self.write_output(&bytes[..n.min(bytes.len())]);
        Ok(n)
    }
}
