// The tables of a run, its numbers, a byte's interval from its entries, and the part of a range that the tables have.
#![tactic(auto)]

ghost use Rattle.std.specs.Prelude.{◌≡◌};
ghost use Rattle.tables.specs.Table.{in_tables};
ghost use Rattle.tables.specs.View.{no_counts, fresh_run_of, lines_of, begin_after, store_after, line_open, since_store, interval_from, named_from};

use event::{Interval, NamedInterval, Range};
use std::marker::Model;

// The numbers of a run. Event numbers start at 1, and 0 stands for none.
#[derive(Clone, Copy)]
pub struct Counts {
    pub lines: u16, // of the window
    pub events: u16,
    pub fences: u16,
    pub findings: u16, // other than none
    pub depth: u16, // transactions open
    pub begin: u16, // the latest outermost begin
    pub store: u16, // the latest store of some byte
    pub fence: u16, // the latest fence
}

// A run: its numbers, six tables over the bytes of the largest window and two over its lines. Findings go by the events alone. The epochs
// and the first write-backs are what the answer of a byte asked has besides: `O` entries for the opening epochs, `C` for the closing ones and
// `W` for the first write-backs, as many as its maker gives them, and a run of which no byte is asked has none. Where a byte is stored to
// again, its entries of the earlier store stay: a closing fence and a write-back older than the last store count for nothing, and so does the
// closing epoch then.
// stays: an array for each table, and 0 in it for none, since per-byte arrays that begin as `[0; 4096]` are the form of document 01
// (docs/DECISIONS.md), and specs/ goes by it
#[derive(Clone, Copy)]
pub struct RunOf<const O: usize, const C: usize, const W: usize> {
    pub counts: Counts,
    pub stored: [u16; 4096], // a byte's last store
    pub logged: [u16; 4096], // a byte's last log
    pub fenced: [u16; 4096], // the fence that closed its interval
    pub opened: [u16; O], // the epoch at which its interval opened
    pub closed: [u16; C], // the epoch at which it closed
    pub written: [u16; W], // the first write-back of its line after its last store
    pub dirtied: [u16; 64], // the last store to a line
    pub backed: [u16; 64], // the last write-back of a line
}

// A run whose tables of epochs and first write-backs have as many entries as one another.
pub type Run<const E: usize> = RunOf<E, E, E>;

// Clauses see a run as one record, however many entries it has.
impl<const O: usize, const C: usize, const W: usize> Model for RunOf<O, C, W> {
    ghost use Rattle.tables.specs.Run.{Run};
    ghost use Rattle.tables.specs.View.{run_of};

    ghost Value = { Run };

    ghost view = { λ r. run_of r.counts r.stored r.logged r.fenced r.opened r.closed r.written r.dirtied r.backed };

    ghost inverse = { λ r. record {
      counts = r.counts;
      stored = r.stored;
      logged = r.logged;
      fenced = r.fenced;
      opened = r.opened;
      closed = r.closed;
      written = r.written;
      dirtied = r.dirtied;
      backed = r.backed;
    } };
}

impl<const O: usize, const C: usize, const W: usize> RunOf<O, C, W> {
    // A run in which nothing has happened.
    pub fn fresh(lines: u16) -> Self
        ensures { result ≡ fresh_run_of O C W lines }
    {
        RunOf {
            counts: no_counts(lines),
            stored: [0; 4096],
            logged: [0; 4096],
            fenced: [0; 4096],
            opened: [0; O],
            closed: [0; C],
            written: [0; W],
            dirtied: [0; 64],
            backed: [0; 64],
        }
    }
}

// A run that the caller lends part by part: its numbers and its tables, each wherever it stands, and as many entries for the opening epochs, the
// closing ones and the first write-backs as the caller has.
#[derive(Drop)]
pub struct LentRun<'a> {
    pub counts: &'a mut Counts,
    pub stored: &'a mut [u16; 4096],
    pub logged: &'a mut [u16; 4096],
    pub fenced: &'a mut [u16; 4096],
    pub opened: &'a mut [u16],
    pub closed: &'a mut [u16],
    pub written: &'a mut [u16],
    pub dirtied: &'a mut [u16; 64],
    pub backed: &'a mut [u16; 64],
}

// The parts of a `RunOf`, lent. Where its lengths are parameters of a type, today's check ties the three slices to nothing: there a function
// that takes slices makes the `LentRun`.
#[macro_export]
macro_rules! lend {
    ($run:expr) => {
        $crate::LentRun {
            counts: &mut $run.counts,
            stored: &mut $run.stored,
            logged: &mut $run.logged,
            fenced: &mut $run.fenced,
            opened: &mut $run.opened,
            closed: &mut $run.closed,
            written: &mut $run.written,
            dirtied: &mut $run.dirtied,
            backed: &mut $run.backed,
        }
    };
}

// The numbers of a run in which nothing has happened.
pub fn no_counts(lines: u16) -> Counts
    ensures { result ≡ no_counts lines }
{
    Counts {
        lines,
        events: 0,
        fences: 0,
        findings: 0,
        depth: 0,
        begin: 0,
        store: 0,
        fence: 0,
    }
}

// The window's lines, at most those of the largest window.
pub fn lines_of(counts: Counts) -> u16
    ensures { result ≡ lines_of counts }
{
    counts.lines.min(64)
}

// The latest outermost begin after a begin: this event, where no transaction was open.
pub fn begin_after(depth: u16, begin: u16, number: u16) -> u16
    ensures { result ≡ begin_after depth begin number }
{
    if depth == 0 { number } else { begin }
}

// The latest store of some byte after a store: this one, where the range has a byte.
pub fn store_after(a: Range, store: u16, number: u16) -> u16
    ensures { result ≡ store_after a store number }
{
    if ranges::is_empty(a) { store } else { number }
}

// Whether a line may have an open byte, from the latest fence, its last store and its last write-back: where the write-back is later than
// the store, and the fence later than the write-back, all its bytes are closed.
pub fn line_open(fence: u16, dirtied: u16, backed: u16) -> bool
    ensures { result ≡ line_open fence dirtied backed }
{
    backed <= dirtied || fence <= backed
}

// An event that an entry of a byte names, or 0 where it is older than the byte's last store.
pub fn since_store(store: u16, event: u16) -> u16
    ensures { result ≡ since_store store event }
{
    if event < store { 0 } else { event }
}

// A byte's interval, from its last store, the fence that closed it, and the epochs at which it opened and closed.
pub fn interval_from(store: u16, fenced: u16, opened: u16, closed: u16) -> Interval
    ensures { result ≡ interval_from store fenced opened closed }
{
    if store == 0 {
        return Interval::None;
    }
    if since_store(store, fenced) == 0 {
        return Interval::Open(opened);
    }
    Interval::Closed(opened, closed)
}

// The same with its events; `written` is the first write-back after the last store.
pub fn named_from(store: u16, fenced: u16, opened: u16, closed: u16, written: u16) -> NamedInterval
    ensures { result ≡ named_from store fenced opened closed written }
{
    if store == 0 {
        return NamedInterval::None;
    }
    let back = since_store(store, written);
    let fence = since_store(store, fenced);
    if fence == 0 {
        return NamedInterval::Open {
            opened,
            store,
            back,
        };
    }
    NamedInterval::Closed {
        opened,
        closed,
        store,
        back,
        fence,
    }
}

// The part of a range that the tables have.
pub fn in_tables(a: Range) -> Range
    ensures { result ≡ in_tables a }
{
    let address = a.address.min(4096);
    Range {
        address,
        length: a.length.min(4096 - address),
    }
}
