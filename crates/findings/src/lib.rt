// The finding of each kind of event, from the numbers and tables before it. A range stands for the part of it that the tables have.
//
// stays: a finding that goes by one table or two is lent these by themselves, as a write in `writes` is: a value of more would ask for more.
#![tactic(auto)]

ghost use Rattle.std.specs.Prelude.{◌≡◌, ℕ, ◌<◌, []};
ghost use Rattle.std.proofs.Math.Option.{some};
ghost use Rattle.history.specs.Found.{lowest_in, finding_by};
ghost use Rattle.tables.specs.Table.{in_tables};
ghost use Rattle.tables.specs.View.{run_of, no_counts, of_run};
ghost use Rattle.searches.specs.Tests.{found_by, open_byte};
ghost use Rattle.findings.specs.Findings.{durable_at, ended_at};

use event::{Event, Finding, Range};
use pairs::Pair;
use searches::{RiskTables, Test};
use tables::Counts;

// A store: unlogged, where a transaction is open.
pub fn of_store(counts: Counts, logged: &[u16; 4096], a: Range) -> Finding
    ensures { result ≡ finding_by (of_run (run_of counts [] logged.now [] [] [] [] [] [])) (Event.Store (in_tables a)) }
{
    if counts.depth == 0 {
        return Finding::None;
    }
    let unlogged = Test::NotSince(counts.begin);
    match searches::first_byte(unlogged, logged, logged, a) {
        None => Finding::None,
        Some(b) => Finding::Unlogged { lost: b },
    }
}

// A write-back: clean or written twice.
pub fn of_back(dirtied: &[u16; 64], backed: &[u16; 64], a: Range) -> Finding
    ensures { result ≡
        finding_by (of_run (run_of (no_counts 0) [] [] [] [] [] [] dirtied.now backed.now)) (Event.WriteBack (in_tables a)) }
{
    match searches::first_line(Test::Wasted, dirtied, backed, a) {
        None => Finding::None,
        Some(l) => {
            let lost = window::line_start(l);
            let i = l as usize;
            if dirtied[i] == 0 {
                Finding::Clean { lost }
            } else {
                Finding::WrittenTwice { lost }
            }
        }
    }
}

// A log: logged twice.
pub fn of_log(counts: Counts, logged: &[u16; 4096], a: Range) -> Finding
    ensures { result ≡ finding_by (of_run (run_of counts [] logged.now [] [] [] [] [] [])) (Event.Log (in_tables a)) }
{
    let twice = Test::Since(counts.begin);
    match searches::first_byte(twice, logged, logged, a) {
        None => Finding::None,
        Some(b) => Finding::LoggedTwice { lost: b },
    }
}

// Holds where a search found nothing, and lost at the byte that it found, by the event with this number.
fn lost_at(number: u16, stored: &[u16; 4096], s: Option<u16>) -> Finding
    requires { (b : ℕ) → found_by s ≡ some b → b < 4096 }
    ensures { result ≡ durable_at number stored.now (found_by s) }
{
    match s {
        None => Finding::Holds,
        Some(b) => {
            let i = b as usize;
            Finding::Lost {
                lost: b,
                moment: number,
                store: stored[i],
            }
        }
    }
}

// A persisted with this number: holds or lost.
pub fn of_persisted(number: u16, fence: u16, tables: RiskTables<'_>, a: Range) -> Finding
    ensures { result ≡
        durable_at number tables.entry.stored.now
        (lowest_in
        (open_byte fence tables.entry.stored.now tables.entry.fenced.now tables.entry.dirtied.now tables.entry.backed.now)
        (in_tables a)) }
{
    let s = searches::first_open(fence, tables, a);
    lost_at(number, tables.stored, s)
}

// An end with this number: none if it is an inner one; else empty, or as a persisted over the bytes stored since the begin.
pub fn of_end(number: u16, counts: Counts, tables: RiskTables<'_>) -> Finding
    ensures { result ≡
        ended_at number counts tables.entry.stored.now tables.entry.fenced.now tables.entry.dirtied.now tables.entry.backed.now }
{
    if counts.depth != 1 {
        return Finding::None;
    }
    if counts.store <= counts.begin {
        return Finding::Empty;
    }
    let s = searches::first_since_begin(counts, tables);
    lost_at(number, tables.stored, s)
}

// An ordered: holds or out of order.
pub fn of_ordered(stored: &[u16; 4096], fenced: &[u16; 4096], a: Range, b: Range) -> Finding
    ensures { result ≡
        finding_by
        (of_run (run_of (no_counts 0) stored.now [] fenced.now [] [] [] [] []))
        (Event.Ordered (in_tables a) (in_tables b)) }
{
    match pairs::first_pair(stored, fenced, a, b) {
        None => Finding::Holds,
        Some(Pair { kept, lost }) => {
            let k = kept as usize;
            let l = lost as usize;
            let moment = stored[k];
            let store = stored[l];
            Finding::OutOfOrder {
                lost,
                kept,
                moment,
                store,
            }
        }
    }
}
