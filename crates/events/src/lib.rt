// An event given to a run that the caller lends, in place: no table is copied.
#![tactic(auto)]

ghost use Rattle.std.specs.Prelude.{◌≡◌, Ok, ◌<◌, ◌≤◌, if◌then◌else◌};
ghost use Rattle.event.specs.Numbers.{is_none};
ghost use Rattle.ranges.specs.Ranges.{range_end};
ghost use Rattle.history.specs.Refused.{refusal_by};
ghost use Rattle.history.specs.Found.{finding_by};
ghost use Rattle.tables.specs.View.{limits_of, of_run};
ghost use Rattle.tables.specs.Lent.{lent, SameLent};
ghost use Rattle.events.specs.Next.{one_more, counted_with};
ghost use Rattle.events.specs.Give.{next_of, one_event_more, give_of};
ghost use Rattle.events.specs.Follow.{next_followed, follow_of};

use event::{Event, Finding, Range, Record, Refusal};
use searches::RiskTables;
use std::num;
use tables::{Counts, LentRun};

// The count of findings other than none, with one more finding.
fn findings_after(n: u16, f: Finding) -> u16
    ensures { result ≡ (if is_none f then n else one_more n) }
{
    if matches!(f, Finding::None) {
        n
    } else {
        num::wrapping_add_u16(n, 1)
    }
}

// The numbers with one more event, which got this finding.
fn counted(counts: Counts, f: Finding) -> Counts
    requires { counts.events < 65535 }
    ensures { result ≡ counted_with counts f }
{
    Counts {
        events: counts.events + 1,
        findings: findings_after(counts.findings, f),
        ..counts
    }
}

// The tables of a run by which a byte's interval is open or closed.
fn risk_tables<'a>(run: &'a LentRun<'_>) -> RiskTables<'a>
    ensures stored { result.stored.now ≡ run.now.stored.now }
    ensures fenced { result.fenced.now ≡ run.now.fenced.now }
    ensures dirtied { result.dirtied.now ≡ run.now.dirtied.now }
    ensures backed { result.backed.now ≡ run.now.backed.now }
{
    RiskTables {
        stored: run.stored,
        fenced: run.fenced,
        dirtied: run.dirtied,
        backed: run.backed,
    }
}

// The run after a store that got this finding: the last store of its bytes and of its lines; the intervals of its bytes open.
#[inline(always)] // into each loop over records: what the run there has no entries for is left out
fn take_store(run: &mut LentRun<'_>, a: Range, finding: Finding)
    requires { (run.old.counts.now.events < 65535) × (range_end a ≤ 4096) }
    ensures run_after { lent run.new ≡ next_of (lent run.old) (Event.Store a) finding }
    ensures same { SameLent run.new run.old }
{
    let counts = *run.counts;
    let next = counted(counts, finding);
    writes::store(next.events, run.stored, run.dirtied, a);
    intervals::open_bytes(run.opened, a, counts.fences);
    *run.counts = Counts {
        store: tables::store_after(a, counts.store, next.events),
        ..next
    };
}

// A store.
fn store(run: &mut LentRun<'_>, a: Range) -> Finding
    requires { (run.old.counts.now.events < 65535) × (range_end a ≤ 4096) }
    ensures value { result ≡ finding_by (of_run (lent run.old)) (Event.Store a) }
    ensures run_after { lent run.new ≡ next_of (lent run.old) (Event.Store a) result }
    ensures same { SameLent run.new run.old }
{
    let finding = findings::of_store(*run.counts, run.logged, a);
    take_store(run, a, finding);
    finding
}

// The run after a write-back that got this finding: the last of its lines, and the first since their last store of bytes of these lines.
#[inline(always)] // into each loop over records: what the run there has no entries for is left out
fn take_back(run: &mut LentRun<'_>, a: Range, finding: Finding)
    requires { (run.old.counts.now.events < 65535) × (range_end a ≤ 4096) }
    ensures run_after { lent run.new ≡ next_of (lent run.old) (Event.WriteBack a) finding }
    ensures same { SameLent run.new run.old }
{
    let next = counted(*run.counts, finding);
    intervals::write_back(run.written, run.stored, a, next.events);
    writes::fill_lines(run.backed, a, next.events);
    *run.counts = next;
}

// A write-back.
fn write_back(run: &mut LentRun<'_>, a: Range) -> Finding
    requires { (run.old.counts.now.events < 65535) × (range_end a ≤ 4096) }
    ensures value { result ≡ finding_by (of_run (lent run.old)) (Event.WriteBack a) }
    ensures run_after { lent run.new ≡ next_of (lent run.old) (Event.WriteBack a) result }
    ensures same { SameLent run.new run.old }
{
    let finding = findings::of_back(run.dirtied, run.backed, a);
    take_back(run, a, finding);
    finding
}

// A fence: it closes bytes of the window, at the epoch that it begins.
#[inline(always)] // into each loop over records: what the run there has no entries for is left out
fn fence(run: &mut LentRun<'_>) -> Finding
    requires { run.old.counts.now.events < 65535 }
    ensures value { result ≡ finding_by (of_run (lent run.old)) Event.Fence }
    ensures run_after { lent run.new ≡ next_of (lent run.old) Event.Fence result }
    ensures same { SameLent run.new run.old }
{
    let counts = *run.counts;
    let next = counted(counts, Finding::None);
    let epoch = num::wrapping_add_u16(counts.fences, 1);
    writes::close_lines(run.fenced, run.stored, run.backed, counts, next.events);
    intervals::close_epochs(run.closed, run.fenced, counts, next.events, epoch);
    *run.counts = Counts {
        fences: epoch,
        fence: next.events,
        ..next
    };
    Finding::None
}

// A begin: one transaction more is open; where none was, this is the outermost.
fn begin(run: &mut LentRun<'_>) -> Finding
    requires { (run.old.counts.now.events < 65535) × (run.old.counts.now.depth < 8) }
    ensures value { result ≡ finding_by (of_run (lent run.old)) Event.Begin }
    ensures run_after { lent run.new ≡ next_of (lent run.old) Event.Begin result }
    ensures same { SameLent run.new run.old }
{
    let counts = *run.counts;
    let next = counted(counts, Finding::None);
    *run.counts = Counts {
        depth: counts.depth + 1,
        begin: tables::begin_after(counts.depth, counts.begin, next.events),
        ..next
    };
    Finding::None
}

// A log: the last of its bytes.
fn log(run: &mut LentRun<'_>, a: Range) -> Finding
    requires { (run.old.counts.now.events < 65535) × (range_end a ≤ 4096) }
    ensures value { result ≡ finding_by (of_run (lent run.old)) (Event.Log a) }
    ensures run_after { lent run.new ≡ next_of (lent run.old) (Event.Log a) result }
    ensures same { SameLent run.new run.old }
{
    let finding = findings::of_log(*run.counts, run.logged, a);
    let next = counted(*run.counts, finding);
    writes::fill_bytes(run.logged, a, next.events);
    *run.counts = next;
    finding
}

// The run after an end that got this finding: one transaction less is open.
fn take_end(run: &mut LentRun<'_>, finding: Finding)
    requires { (run.old.counts.now.events < 65535) × (1 ≤ run.old.counts.now.depth) }
    ensures run_after { lent run.new ≡ next_of (lent run.old) Event.End finding }
    ensures same { SameLent run.new run.old }
{
    let counts = *run.counts;
    *run.counts = Counts {
        depth: counts.depth - 1,
        ..counted(counts, finding)
    };
}

// An end.
fn end(run: &mut LentRun<'_>) -> Finding
    requires { (run.old.counts.now.events < 65535) × (1 ≤ run.old.counts.now.depth) }
    ensures value { result ≡ finding_by (of_run (lent run.old)) Event.End }
    ensures run_after { lent run.new ≡ next_of (lent run.old) Event.End result }
    ensures same { SameLent run.new run.old }
{
    let counts = *run.counts;
    let finding = findings::of_end(counts.events + 1, counts, risk_tables(run));
    take_end(run, finding);
    finding
}

// A persisted: it changes no table.
fn persisted(run: &mut LentRun<'_>, a: Range) -> Finding
    requires { (run.old.counts.now.events < 65535) × (range_end a ≤ 4096) }
    ensures value { result ≡ finding_by (of_run (lent run.old)) (Event.Persisted a) }
    ensures run_after { lent run.new ≡ next_of (lent run.old) (Event.Persisted a) result }
    ensures same { SameLent run.new run.old }
{
    let counts = *run.counts;
    let finding = findings::of_persisted(counts.events + 1, counts.fence, risk_tables(run), a);
    *run.counts = counted(counts, finding);
    finding
}

// An ordered: it changes no table.
fn ordered(run: &mut LentRun<'_>, a: Range, b: Range) -> Finding
    requires { (run.old.counts.now.events < 65535) × (range_end a ≤ 4096) × (range_end b ≤ 4096) }
    ensures value { result ≡ finding_by (of_run (lent run.old)) (Event.Ordered a b) }
    ensures run_after { lent run.new ≡ next_of (lent run.old) (Event.Ordered a b) result }
    ensures same { SameLent run.new run.old }
{
    let finding = findings::of_ordered(run.stored, run.fenced, a, b);
    *run.counts = counted(*run.counts, finding);
    finding
}

// An event that no limit refuses: its finding, and the run after it.
fn accept(run: &mut LentRun<'_>, e: Event) -> Finding
    requires { refusal_by (limits_of run.old.counts.now) e ≡ Ok tt }
    ensures value { result ≡ finding_by (of_run (lent run.old)) e }
    ensures run_after { lent run.new ≡ next_of (lent run.old) e result }
    ensures same { SameLent run.new run.old }
{
    match e {
        Event::Store(a) => store(run, a),
        Event::WriteBack(a) => write_back(run, a),
        Event::Fence => fence(run),
        Event::Begin => begin(run),
        Event::Log(a) => log(run, a),
        Event::End => end(run),
        Event::Persisted(a) => persisted(run, a),
        Event::Ordered(a, b) => ordered(run, a, b),
    }
}

// Refused by the first of 9, 18, 10 to 12 that applies, and the run as it was; or the finding, and the run after the event.
pub fn step(run: &mut LentRun<'_>, r: Record) -> Result<Finding, Refusal>
    ensures answer { result ≡ (give_of (lent run.old) r).answer }
    ensures run_after { lent run.new ≡ (give_of (lent run.old) r).run }
    ensures same { SameLent run.new run.old }
{
    let counts = *run.counts;
    limits::check_event(
        tables::lines_of(counts),
        counts.events,
        counts.depth,
        r.event,
    )?;
    Ok(accept(run, r.event))
}

// The run with one event more, which got no finding.
fn take_one(run: &mut LentRun<'_>)
    requires { run.old.counts.now.events < 65535 }
    ensures run_after { lent run.new ≡ one_event_more (lent run.old) }
    ensures same { SameLent run.new run.old }
{
    *run.counts = counted(*run.counts, Finding::None);
}

// The run after an accepted event, but for the undo log and the count of findings, which stay as they were.
fn follow_accepted(run: &mut LentRun<'_>, e: Event)
    requires { refusal_by (limits_of run.old.counts.now) e ≡ Ok tt }
    ensures run_after { lent run.new ≡ next_followed (lent run.old) e }
    ensures same { SameLent run.new run.old }
{
    match e {
        Event::Store(a) => take_store(run, a, Finding::None),
        Event::WriteBack(a) => take_back(run, a, Finding::None),
        Event::Fence => {
            fence(run);
        }
        Event::Begin => {
            begin(run);
        }
        Event::End => take_end(run, Finding::None),
        Event::Log(_) | Event::Persisted(_) | Event::Ordered(_, _) => take_one(run),
    }
}

// An event given where nobody asks for findings: refused as by `step`, and the run as it was; or the run after it, but for the undo log and
// the count of findings.
pub fn follow(run: &mut LentRun<'_>, r: Record) -> Result<(), Refusal>
    ensures answer { result ≡ (follow_of (lent run.old) r).check }
    ensures run_after { lent run.new ≡ (follow_of (lent run.old) r).run }
    ensures same { SameLent run.new run.old }
{
    let before = *run.counts;
    let lines = tables::lines_of(before);
    let () = limits::check_event(lines, before.events, before.depth, r.event)?;
    follow_accepted(run, r.event);
    Ok(())
}
