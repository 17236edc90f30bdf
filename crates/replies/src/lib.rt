// An answer as numbers: those of its reply, whatever a caller gets.
#![tactic(auto)]

ghost use Rattle.std.specs.Prelude.{◌≡◌, ◌≤◌, [], ◌∷◌, ℕ, List, length};
ghost use Rattle.event.specs.Numbers.{number_of};
ghost use Rattle.event.specs.Reply.{Reply, reply_by, refusal_reply, trace_refusal_reply, no_values, finding_values, named_values, totals_values};
ghost use Rattle.exposure.specs.Exposure.{mean_values};
ghost use Rattle.file.specs.Reply.{closed_reply};
ghost use Rattle.trace_interval.specs.TraceInterval.{sited_values};
ghost use Rattle.pages.specs.Paged.{page_refusal_reply};
ghost use Rattle.replies.specs.Numbers.{numbers_of, in_bits32};

use event::{Fields, Finding, NamedInterval, Refusal, Totals, TraceRefusal, numbers};
use exposure::Mean;
use file::Writer;
use pages::PageRefusal;
use trace_interval::SitedInterval;

// A refusal's number and its record's, both 0 where there is none; and the values, so many of them, with 0 behind them.
// stays: 0 for no refusal and an array with a count are the form of include/pmjudge.h, in which pmjudge_c hands an answer to C
#[derive(Clone, Copy)]
pub struct Numbers {
    pub number: u8,
    pub at: u32,
    pub count: u8,
    pub values: [u32; 8],
}

// What is answered where nothing is refused: its values, in the paper's order.
pub trait Values {
    ghost values_of: { Self → List ℕ };

    fn numbers(self) -> Numbers
        ensures { result ≡ numbers_of (Reply.values (values_of self)) };
}

// A refusal: its number, and what it is about.
pub trait Refused {
    ghost refusal_of: { Self → Reply };

    fn numbers(self) -> Numbers
        ensures { result ≡ numbers_of (refusal_of self) };
}

// Any answer.
pub fn of<T: Values, E: Refused>(answer: Result<T, E>) -> Numbers
    ensures { result ≡ numbers_of (reply_by T.values_of E.refusal_of answer) }
{
    match answer {
        Ok(x) => x.numbers(),
        Err(x) => x.numbers(),
    }
}

// No refusal, and these values.
fn with_values(values: &[u16]) -> Numbers
    requires { length values.now ≤ 8 }
    ensures { result ≡ numbers_of (Reply.values values.now) }
{
    let mut all = [0; 8];
    for i in 0..values.len() {
        all[i] = u32::from(values[i]);
    }
    Numbers {
        number: 0,
        at: 0,
        count: values.len() as u8,
        values: all,
    }
}

// A refusal about a record or a finding, or about neither, which is 0.
fn with_number(x: Refusal, at: u32) -> Numbers
    ensures { result ≡ numbers_of (Reply.refused (number_of x) at) }
{
    Numbers {
        number: numbers::number(x),
        at,
        count: 0,
        values: [0; 8],
    }
}

impl Refused for Refusal {
    ghost refusal_of = { refusal_reply };

    fn numbers(self) -> Numbers {
        with_number(self, 0)
    }
}

impl Refused for TraceRefusal {
    ghost refusal_of = { trace_refusal_reply };

    fn numbers(self) -> Numbers {
        with_number(self.refusal, self.at)
    }
}

impl Refused for PageRefusal {
    ghost refusal_of = { page_refusal_reply };

    fn numbers(self) -> Numbers {
        with_number(self.refusal, u32::from(self.position))
    }
}

// A fresh window, or an event given to a writer.
impl Values for () {
    ghost values_of = { no_values };

    fn numbers(self) -> Numbers {
        with_values(&[])
    }
}

// A file started.
impl Values for Writer {
    ghost values_of = { no_values };

    fn numbers(self) -> Numbers {
        with_values(&[])
    }
}

// A length: of a file closed, or of findings laid out on pages.
impl Values for u32 {
    ghost values_of = { λ length. length ∷ [] };

    fn numbers(self) -> Numbers {
        Numbers {
            number: 0,
            at: 0,
            count: 1,
            values: [self, 0, 0, 0, 0, 0, 0, 0],
        }
    }
}

// An event given to a run: kind, lost, kept, moment, store.
impl Values for Finding {
    ghost values_of = { finding_values };

    fn numbers(self) -> Numbers {
        let x = Fields::from(self);
        with_values(&[u16::from(x.kind), x.lost, x.kept, x.moment, x.store])
    }
}

// A run closed or a trace judged: events, fences, findings other than none.
impl Values for Totals {
    ghost values_of = { totals_values };

    fn numbers(self) -> Numbers {
        with_values(&[self.events, self.fences, self.findings])
    }
}

// The mean exposure of a run or a trace: quotient, remainder, divisor.
impl Values for Mean {
    ghost values_of = { mean_values };

    fn numbers(self) -> Numbers {
        with_values(&[self.quotient, self.remainder, self.divisor])
    }
}

// A byte asked of a run: its epochs, and then its events.
impl Values for NamedInterval {
    ghost values_of = { named_values };

    fn numbers(self) -> Numbers {
        match self {
            NamedInterval::None => with_values(&[]),
            NamedInterval::Open {
                opened,
                store,
                back,
            } => with_values(&[opened, store, back]),
            NamedInterval::Closed {
                opened,
                closed,
                store,
                back,
                fence,
            } => with_values(&[opened, closed, store, back, fence]),
        }
    }
}

// A byte asked after a trace: its epochs, its events, and the sites of these.
impl Values for SitedInterval {
    ghost values_of = { sited_values };

    fn numbers(self) -> Numbers {
        let s = self.sites;
        match self.interval {
            NamedInterval::None => with_values(&[]),
            NamedInterval::Open {
                opened,
                store,
                back,
            } => with_values(&[opened, store, back, s.store, s.back]),
            NamedInterval::Closed {
                opened,
                closed,
                store,
                back,
                fence,
            } => with_values(&[opened, closed, store, back, fence, s.store, s.back, s.fence]),
        }
    }
}

// A file closed: its length, in 32 bits.
// stays: beside `of`, since a length of 64 bits becomes one of 32 first, and its clause says so (`in_bits32`)
pub fn of_closed(c: Result<usize, Refusal>) -> Numbers
    ensures { result ≡ numbers_of (closed_reply (in_bits32 c)) }
{
    of(c.map(|length| (length % 4294967296) as u32))
}
