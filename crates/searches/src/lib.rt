// Searches over tables that the caller lends: the lowest byte or line that passes a test. A range stands for the part of it that the
// tables have.
//
// stays: where a search starts and how many places it asks are two numbers and no `Range<usize>`, since the definitions (`lowest`, `skipped`)
// and so the clauses speak of these two, and would have to make the second of the range's end.
#![tactic(auto)]

ghost use Rattle.std.specs.Prelude.{◌≡◌, ℕ, Bool, ◌&&◌, ◌+◌, ◌/◌, ◌≤◌, ◌<◌, min, leb, ltb, length};
ghost use Rattle.window.specs.Window.{window_bytes, line_of};
ghost use Rattle.ranges.specs.Ranges.{line_count};
ghost use Rattle.history.specs.Found.{lowest, lowest_in};
ghost use Rattle.tables.specs.Table.{in_tables};
ghost use Rattle.tables.specs.View.{line_open, lines_of};
ghost use Rattle.searches.specs.Tests.{searched, is_found, passing, skipped, open_byte, lost_at_end};

use event::Range;
use tables::Counts;

// The tables by which a byte's interval is open or closed.
#[derive(Clone, Copy)]
pub struct RiskTables<'a> {
    pub stored: &'a [u16; 4096],
    pub fenced: &'a [u16; 4096],
    pub dirtied: &'a [u16; 64],
    pub backed: &'a [u16; 64],
}

// What a search over bytes or lines looks for, in the entries of two tables.
#[derive(Clone, Copy)]
pub enum Test {
    Since(u16), // an event after this one
    NotSince(u16), // none after it
    OpenSince(u16), // a store after it, and no closing fence since that store
    Open, // a store, and no closing fence since
    Wasted, // no store, or none since the last write-back
}

// Numbered places, bytes or lines, that a search asks one after another.
pub trait Places {
    ghost count: { Self → ℕ }; // how many there are

    ghost passing: { Self → ℕ → Bool };

    // Whether a place is what the search looks for.
    fn passes(&self, at: usize) -> bool
        requires { at < count self.now }
        ensures { result ≡ passing self.now at };
}

// The bytes or lines by their entries in two tables.
#[derive(Drop)]
struct Entries<'a> {
    test: Test,
    xs: &'a [u16],
    ys: &'a [u16],
}

impl<'a> Places for Entries<'a> {
    ghost count = { λ e. min (length e.xs.now) (length e.ys.now) };

    ghost passing = { λ e. passing e.test e.xs.now e.ys.now };

    fn passes(&self, at: usize) -> bool {
        let x = self.xs[at];
        let y = self.ys[at];
        // stays: a value to match on, and no closure: with one, each public search would have a `requires` on what it may be asked, where it
        // has none now; a type for each of the five tests is five impls in place of these five lines
        match self.test {
            Test::Since(n) => n < x,
            Test::NotSince(n) => x <= n,
            Test::OpenSince(n) => n < x && y < x,
            Test::Open => y < x,
            Test::Wasted => x == 0 || x < y,
        }
    }
}

// Whether one of the n places from `at` on passes. Every one is looked at, so that several can be looked at at once.
fn any<P: Places>(places: &P, at: usize, n: usize) -> bool
    requires { (at + n ≤ 4096) × (at + n ≤ P.count places.now) }
    ensures { result ≡ is_found (lowest (P.passing places.now) at n) }
{
    let mut found = false;
    for i in 0..n {
        found |= places.passes(at + i);
    }
    found
}

// Whether one of the eight lines from `at` on passes; no, where there are no eight.
pub fn any_of_eight(test: Test, xs: &[u16; 64], ys: &[u16; 64], at: usize) -> bool
    ensures { result ≡ (leb at 56 && is_found (lowest (passing test xs.now ys.now) at 8)) }
{
    at <= 56 && any(&Entries { test, xs, ys }, at, 8)
}

// The n places from `at` on are looked at in groups of eight: the start of the first group of which one passes, or the place after the
// last whole group.
pub fn skip<P: Places>(places: &P, at: usize, n: usize) -> usize
    requires { (at + n ≤ 4096) × (at + n ≤ P.count places.now) }
    ensures { result ≡ skipped (P.passing places.now) at (n / 8) }
{
    let end = at + n;
    let mut b = at;
    // stays: slower (the bar stands in docs/PERFORMANCE.md): with a `for` over the groups large ordered takes 78,859,436 instructions against
    // 64,710,054
    while b + 8 <= end {
        if any(places, b, 8) {
            return b;
        }
        b += 8;
    }
    b
}

// The lowest of the n places from `at` on that passes, one after another.
fn scan<P: Places>(places: &P, at: usize, n: usize) -> Option<u16>
    requires { (at + n ≤ 4096) × (at + n ≤ P.count places.now) }
    ensures { result ≡ searched (lowest (P.passing places.now) at n) }
{
    for b in at..at + n {
        if places.passes(b) {
            return Some(b as u16);
        }
    }
    None
}

// The lowest line that a range touches and that passes the test.
pub fn first_line(test: Test, xs: &[u16; 64], ys: &[u16; 64], a: Range) -> Option<u16>
    ensures { result ≡
        searched
        (lowest (passing test xs.now ys.now) (line_of (in_tables a).address) (line_count (in_tables a))) }
{
    let part = tables::in_tables(a);
    let at = window::line_of(part.address) as usize;
    let n = ranges::line_count(part) as usize;
    scan(&Entries { test, xs, ys }, at, n)
}

// The lowest of the n places from `at` on that passes.
fn first<P: Places>(places: &P, at: usize, n: usize) -> Option<u16>
    requires { (at + n ≤ 4096) × (at + n ≤ P.count places.now) }
    ensures { result ≡ searched (lowest (P.passing places.now) at n) }
{
    let b = skip(places, at, n);
    scan(places, b, at + n - b)
}

// The lowest byte of a range that passes the test.
pub fn first_byte(test: Test, xs: &[u16; 4096], ys: &[u16; 4096], a: Range) -> Option<u16>
    ensures { result ≡ searched (lowest_in (passing test xs.now ys.now) (in_tables a)) }
{
    let part = tables::in_tables(a);
    first(
        &Entries { test, xs, ys },
        part.address as usize,
        part.length as usize,
    )
}

// The end of the line of a byte, or of what is searched, whichever comes first.
fn line_stop(b: usize, end: usize) -> usize
    requires { b ≤ 4096 }
    ensures { result ≡ min (window_bytes (line_of b + 1)) end }
{
    ((b / 64 + 1) * 64).min(end)
}

// The lowest byte of a range whose interval is open, line by line. Lines that have no open byte by their last store and their last
// write-back are passed over.
pub fn first_open(fence: u16, tables: RiskTables<'_>, a: Range) -> Option<u16>
    ensures { result ≡
        searched
        (lowest_in
        (open_byte fence tables.entry.stored.now tables.entry.fenced.now tables.entry.dirtied.now tables.entry.backed.now)
        (in_tables a)) }
{
    let RiskTables {
        stored,
        fenced,
        dirtied,
        backed,
    } = tables;
    let open = Entries {
        test: Test::Open,
        xs: stored,
        ys: fenced,
    };
    let part = tables::in_tables(a);
    let mut b = part.address as usize;
    let end = b + part.length as usize;
    // stays: each turn ends where its line or the range does, so a `for` over the lines would work out both ends of each
    while b < end {
        let l = b / 64;
        let stop = line_stop(b, end);
        if tables::line_open(fence, dirtied[l], backed[l]) {
            if any(&open, b, stop - b) {
                return first(&open, b, stop - b);
            }
        }
        b = stop;
    }
    None
}

// Whether a line was stored to after the outermost begin and may have an open byte.
fn line_at_end(begin: u16, fence: u16, dirtied: u16, backed: u16) -> bool
    ensures { result ≡ (ltb begin dirtied && line_open fence dirtied backed) }
{
    begin < dirtied && tables::line_open(fence, dirtied, backed)
}

// The lowest byte of the window that was stored to after the outermost begin and whose interval is open. Lines not stored to after it, and
// those that have no open byte, are passed over.
pub fn first_since_begin(counts: Counts, tables: RiskTables<'_>) -> Option<u16>
    ensures { result ≡
        searched
        (lowest
        (lost_at_end counts.begin counts.fence tables.entry.stored.now tables.entry.fenced.now tables.entry.dirtied.now tables.entry.backed.now)
        0
        (window_bytes (lines_of counts))) }
{
    let begin = counts.begin;
    let fence = counts.fence;
    let lines = tables::lines_of(counts) as usize;
    let RiskTables {
        stored,
        fenced,
        dirtied,
        backed,
    } = tables;
    let lost = Entries {
        test: Test::OpenSince(begin),
        xs: stored,
        ys: fenced,
    };
    for l in 0..lines {
        if line_at_end(begin, fence, dirtied[l], backed[l]) {
            let at = window::line_start(l as u16) as usize;
            if let Some(b) = first(&lost, at, 64) {
                return Some(b);
            }
        }
    }
    None
}
