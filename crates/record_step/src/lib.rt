// One record given to a run that the caller lends, and its finding put into a buffer.
#![tactic(auto)]

ghost use Rattle.std.specs.Prelude.{◌≡◌};
ghost use Rattle.tables.specs.Lent.{lent, SameLent};
ghost use Rattle.record_step.specs.Step.{stage, record_answer, record_given};

use event::{Finding, Record, Refusal};
use tables::LentRun;

// One record given to a run, and its finding put with its site at a place of the buffer; nothing of either changes where it is refused.
pub fn judge_record(
    run: &mut LentRun<'_>,
    p: Result<Record, Refusal>,
    at: usize,
    buffer: &mut [u8],
) -> Result<Finding, Refusal>
    ensures answer_value { result ≡ record_answer p (stage (lent run.old) buffer.old) }
    ensures buffer_after { stage (lent run.new) buffer.new ≡ record_given p at (stage (lent run.old) buffer.old) }
    ensures same { SameLent run.new run.old }
{
    let r = p?;
    let f = events::step(run, r)?;
    codec::put(buffer, at, &codec::finding_bytes(f, r.site));
    Ok(f)
}
