// The persist interval of a byte after all events of a trace, with the sites of the events that it names.
#![tactic(auto)]

ghost use Rattle.std.specs.Prelude.{◌≡◌, []};
ghost use Rattle.trace.specs.Records.{records_of};
ghost use Rattle.pass.specs.Pass.{all_judged};
ghost use Rattle.trace_interval.specs.TraceInterval.{site_in, sites_in, interval_by, trace_interval_of};

use event::{NamedInterval, TraceRefusal};
use tables::{Run, lend};
use trailer::opening;

// The sites of the last store, of the first write-back after it and of the closing fence; 0 where the interval names none.
#[derive(Clone, Copy)]
pub struct Sites {
    pub store: u16,
    pub back: u16,
    pub fence: u16,
}

// A byte's interval, with the sites of the events that it names.
#[derive(Clone, Copy)]
pub struct SitedInterval {
    pub interval: NamedInterval,
    pub sites: Sites,
}

// The site of an event of an accepted trace, which is that of the record with its number.
fn site_of(records: &[u8], count: u32, event: u16) -> u16
    ensures { result ≡ site_in (records_of count records.now) event }
{
    let n = event as u32;
    if n == 0 {
        return 0;
    }
    if count < n {
        return 0;
    }
    match trace::record_at(records, n - 1) {
        Err(_) => 0,
        Ok(r) => r.site,
    }
}

// The sites of the events that an interval names.
fn sites_of(records: &[u8], count: u32, i: NamedInterval) -> Sites
    ensures { result ≡ sites_in (records_of count records.now) i }
{
    match i {
        NamedInterval::None => Sites {
            store: 0,
            back: 0,
            fence: 0,
        },
        NamedInterval::Open {
            opened: _,
            store,
            back,
        } => Sites {
            store: site_of(records, count, store),
            back: site_of(records, count, back),
            fence: 0,
        },
        NamedInterval::Closed {
            opened: _,
            closed: _,
            store,
            back,
            fence,
        } => Sites {
            store: site_of(records, count, store),
            back: site_of(records, count, back),
            fence: site_of(records, count, fence),
        },
    }
}

// The records followed from a fresh window, and the run after them asked. Nobody asks for findings.
fn records_interval(
    records: &[u8],
    count: u32,
    lines: u16,
    byte: u16,
) -> Result<SitedInterval, TraceRefusal>
    ensures { result ≡
        interval_by (records_of count records.now) (all_judged count lines records.now []) byte }
{
    let mut run = Run::fresh(lines);
    pass::follow_records(records, count, &mut lend!(run))?;
    let interval = engine::ask(&run, byte)?;
    Ok(SitedInterval {
        interval,
        sites: sites_of(records, count, interval),
    })
}

// The interval of a byte after a trace, or the first of 1 to 13 that applies, and then 9 for a byte past the window.
pub fn interval(trace: &[u8], byte: u16) -> Result<SitedInterval, TraceRefusal>
    ensures { result ≡ trace_interval_of trace.now byte }
{
    let t = opening::open(trace)?;
    records_interval(trace::part(trace, t.offset), t.count, t.lines, byte)
}
