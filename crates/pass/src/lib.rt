// The records of a trace, given one after another to a run that the caller lends; their findings go into a buffer, or nobody asks for them.
#![tactic(auto)]

ghost use Rattle.std.specs.Prelude.{◌≡◌, cond, eqb, Ok};
ghost use Rattle.tables.specs.Lent.{lent, SameLent};
ghost use Rattle.record_step.specs.Step.{stage};
ghost use Rattle.trace.specs.Records.{records_of};
ghost use Rattle.pass.specs.Pass.{records_given};
ghost use Rattle.pass.specs.Follow.{record_followed, records_followed};
ghost use Rattle.event.specs.Answers.{refused_at};

use event::{Record, Refusal, TraceRefusal};
use tables::LentRun;

// The closing: 13 where a transaction is open.
fn close(depth: u16) -> Result<(), TraceRefusal>
    ensures { result ≡ cond (eqb depth 0) (Ok tt) (refused_at Refusal.TransactionOpen 0) }
{
    if depth == 0 {
        return Ok(());
    }
    Err(TraceRefusal::from(Refusal::TransactionOpen))
}

// The records, given one after another to the run, up to the first that is refused, and then the closing. A finding for which the buffer
// has no room is not written.
pub fn give_records(
    records: &[u8],
    count: u32,
    run: &mut LentRun<'_>,
    buffer: &mut [u8],
) -> Result<(), TraceRefusal>
    ensures check_value { result ≡ (records_given count records.now (stage (lent run.old) buffer.old)).check }
    ensures buffer_after { stage (lent run.new) buffer.new ≡ (records_given count records.now (stage (lent run.old) buffer.old)).stage }
    ensures same { SameLent run.new run.old }
{
    for i in 0..count {
        let p = trace::record_at(records, i);
        if let Err(refusal) = record_step::judge_record(run, p, 12 * (i as usize), buffer) {
            return Err(TraceRefusal { refusal, at: i + 1 });
        }
    }
    close(run.counts.depth)
}

// One record given where nobody asks for findings; nothing of the run changes where it is refused.
fn follow_record(run: &mut LentRun<'_>, p: Result<Record, Refusal>) -> Result<(), Refusal>
    ensures answer { result ≡ (record_followed p (lent run.old)).check }
    ensures run_after { lent run.new ≡ (record_followed p (lent run.old)).run }
    ensures same { SameLent run.new run.old }
{
    events::follow(run, p?)
}

// The records given as by `give_records`, where nobody asks for findings: the undo log and the count of findings stay as they were. A loop
// beside that of `give_records`, since the clauses of one loop over a step that is handed in would go by what the step ensures, and each
// caller would have to name it.
pub fn follow_records(records: &[u8], count: u32, run: &mut LentRun<'_>) -> Result<(), TraceRefusal>
    ensures check_value { result ≡ (records_followed (records_of count records.now) 1 (lent run.old)).check }
    ensures run_after { lent run.new ≡ (records_followed (records_of count records.now) 1 (lent run.old)).run }
    ensures same { SameLent run.new run.old }
{
    for i in 0..count {
        let p = trace::record_at(records, i);
        if let Err(refusal) = follow_record(run, p) {
            return Err(TraceRefusal { refusal, at: i + 1 });
        }
    }
    close(run.counts.depth)
}
