// The mean exposure of a whole trace: of the run after all its events.
#![tactic(auto)]

ghost use Rattle.std.specs.Prelude.{◌≡◌, []};
ghost use Rattle.pass.specs.Pass.{all_judged};
ghost use Rattle.trace_exposure.specs.TraceExposure.{exposure_by, trace_exposure_of};

use event::TraceRefusal;
use exposure::Mean;
use tables::{RunOf, lend};
use trailer::opening;

// The records followed from a fresh window, and the run after them asked. Nobody asks for findings, and no mean goes by the first
// write-backs, so the run has no entry for them.
fn records_exposure(records: &[u8], count: u32, lines: u16) -> Result<Mean, TraceRefusal>
    ensures { result ≡ exposure_by (all_judged count lines records.now []) }
{
    let mut run = RunOf::<4096, 4096, 0>::fresh(lines);
    pass::follow_records(records, count, &mut lend!(run))?;
    let mean = exposure::exposure_of(
        run.counts,
        &run.stored,
        &run.fenced,
        &run.opened,
        &run.closed,
    )?;
    Ok(mean)
}

// The mean exposure of a trace, or the first of 1 to 13 and 17 that applies.
pub fn exposure(trace: &[u8]) -> Result<Mean, TraceRefusal>
    ensures { result ≡ trace_exposure_of trace.now }
{
    let t = opening::open(trace)?;
    records_exposure(trace::part(trace, t.offset), t.count, t.lines)
}
