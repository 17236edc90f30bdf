// What the paper names, as types: ranges, events, records, findings, refusals and intervals.
#![tactic(auto)]

ghost use Rattle.std.specs.Prelude.{◌≡◌};
ghost use Rattle.event.specs.Answers.{about};

pub mod numbers; // the paper's number for each case

// `length` bytes from `address` on.
#[derive(Clone, Copy, PartialEq, Eq, Default)]
pub struct Range {
    pub address: u16,
    pub length: u16,
}

// The eight kinds of event, in the order of their numbers. Ordered is "A before B".
#[derive(Clone, Copy)]
pub enum Event {
    Store(Range),
    WriteBack(Range),
    Fence,
    Begin,
    Log(Range),
    End,
    Persisted(Range),
    Ordered(Range, Range),
}

// An event with its site, a number that the tracer chose.
#[derive(Clone, Copy)]
pub struct Record {
    pub event: Event,
    pub site: u16,
}

// The nine kinds of finding, in the order of their numbers, each with the fields that it has.
#[derive(Clone, Copy)]
pub enum Finding {
    None,
    Holds,
    Lost {
        lost: u16,
        moment: u16,
        store: u16,
    },
    OutOfOrder {
        lost: u16,
        kept: u16,
        moment: u16,
        store: u16,
    },
    Unlogged {
        lost: u16,
    },
    Clean {
        lost: u16,
    },
    WrittenTwice {
        lost: u16,
    },
    LoggedTwice {
        lost: u16,
    },
    Empty,
}

// A finding's kind and fields as the paper lists them. Fields that its kind does not mention are 0.
// stays: the kind as a number, since these are what 12 bytes of an area say, whatever they are: `fields_at` promises them for every byte
#[derive(Clone, Copy, Default)]
pub struct Fields {
    pub kind: u8,
    pub lost: u16,
    pub kept: u16,
    pub moment: u16,
    pub store: u16,
}

// The seventeen reasons for a refusal, with their numbers; none has the number 8.
#[derive(Clone, Copy)]
pub enum Refusal {
    TraceTooShort = 1,
    TraceTooLong = 2,
    MarkDiffers = 3,
    BadLines = 4,
    LengthDiffers = 5,
    UnknownKind = 6,
    FieldSet = 7,
    PastWindow = 9,
    EventsExhausted = 10,
    NoTransaction = 11,
    TooDeep = 12,
    TransactionOpen = 13,
    AreaTooShort = 14,
    FileAreaTooShort = 15,
    PageAreaTooShort = 16,
    NoByteClosed = 17,
    SharedByte = 18,
}

// A refusal of a trace, and the number of the record that it is about, from 1, or 0 for trailer, area and closing.
#[derive(Clone, Copy)]
pub struct TraceRefusal {
    pub refusal: Refusal,
    pub at: u32,
}

// A refusal that is about no record.
impl From<Refusal> for TraceRefusal {
    ghost from_gives = { λ x r. r ≡ about x 0 };

    fn from(refusal: Refusal) -> TraceRefusal {
        TraceRefusal { refusal, at: 0 }
    }
}

// The totals of a run that is closed, and of a trace. `findings` counts those other than none.
#[derive(Clone, Copy)]
pub struct Totals {
    pub events: u16,
    pub fences: u16,
    pub findings: u16,
}

// A byte's persist interval: none, open since an epoch, or closed, with the epoch that opened it and the one that closed it.
#[derive(Clone, Copy)]
pub enum Interval {
    None,
    Open(u16),
    Closed(u16, u16),
}

// The same with the events that it goes by: the byte's last store, the first write-back of its line after it, 0 where there is none yet,
// and the fence that closed it.
#[derive(Clone, Copy)]
pub enum NamedInterval {
    None,
    Open {
        opened: u16,
        store: u16,
        back: u16,
    },
    Closed {
        opened: u16,
        closed: u16,
        store: u16,
        back: u16,
        fence: u16,
    },
}
