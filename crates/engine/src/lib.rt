// The engine: a run of tables that answers each event as it is given.
#![tactic(auto)]

ghost use Rattle.std.specs.Prelude.{◌≡◌};
ghost use Rattle.events.specs.Give.{give_of};
ghost use Rattle.engine.specs.Call.{fresh_of, ask_of, close_of};

use event::{Finding, NamedInterval, Range, Record, Refusal, Totals};
use tables::{Run, lend};

// A fresh window: what the check of its lines says, and the run.
// stays: a refused window hands over a run too, of one line (`fresh_of` says so), which a Result would not have
#[derive(Drop)]
pub struct Window {
    pub check: Result<(), Refusal>,
    pub run: Run<4096>,
}

// A fresh window of 1 to 64 lines; any other line count is refused by 4, with a run of one line.
pub fn fresh(lines: u16) -> Window
    ensures { result ≡ fresh_of lines }
{
    match window::check_lines(lines) {
        Ok(()) => Window {
            check: Ok(()),
            run: Run::fresh(lines),
        },
        Err(x) => Window {
            check: Err(x),
            run: Run::fresh(1),
        },
    }
}

// An event given to a run: refused by the first of 9, 18, 10 to 12 that applies, and the run as it was, or its finding and the next run.
pub fn give(run: &mut Run<4096>, r: Record) -> Result<Finding, Refusal>
    ensures answer { result ≡ (give_of run.old r).answer }
    ensures run_after { run.new ≡ (give_of run.old r).run }
{
    events::step(&mut lend!(run), r)
}

// The persist interval of a byte with its events, or 9 where the byte is past the window.
pub fn ask(run: &Run<4096>, byte: u16) -> Result<NamedInterval, Refusal>
    ensures { result ≡ ask_of run.now byte }
{
    let range = Range {
        address: byte,
        length: 1,
    };
    if ranges::is_past(tables::lines_of(run.counts), range) {
        return Err(Refusal::PastWindow);
    }
    let b = byte as usize;
    Ok(tables::named_from(
        run.stored[b],
        run.fenced[b],
        run.opened[b],
        run.closed[b],
        run.written[b],
    ))
}

// The totals of a run, or 13 where a transaction is open. The run may go on.
pub fn close(run: &Run<4096>) -> Result<Totals, Refusal>
    ensures { result ≡ close_of run.now }
{
    let counts = run.counts;
    if counts.depth == 0 {
        Ok(Totals {
            events: counts.events,
            fences: counts.fences,
            findings: counts.findings,
        })
    } else {
        Err(Refusal::TransactionOpen)
    }
}
