// The judge of a whole trace: its findings go into an area that the caller lends.
#![tactic(auto)]

ghost use Rattle.std.specs.Prelude.{◌≡◌, ◌*◌, ◌≤◌, length};
ghost use Rattle.codec.specs.Codec.{finding_size};
ghost use Rattle.verdict.specs.Verdict.{verdict_of, area_after};
ghost use Rattle.pass.specs.Pass.{all_judged};
ghost use Rattle.judge.specs.Ends.{long_buffer, buffer_for, verdict_by, area_by};

use event::{Refusal, Totals, TraceRefusal};
use tables::{Run, lend};
use trailer::opening;

// The records judged into a buffer, and the findings then copied to the area, where nothing is refused. No byte will be asked, so the run
// has no entry for what only a byte's answer goes by.
fn judge_by(
    records: &[u8],
    count: u32,
    lines: u16,
    buffer: &mut [u8],
    area: &mut [u8],
) -> Result<Totals, TraceRefusal>
    requires { (finding_size * count ≤ length buffer.old) × (finding_size * count ≤ length area.old) }
    ensures value { result ≡ verdict_by (all_judged count lines records.now buffer.old) }
    ensures buffer_after { buffer.new ≡ (all_judged count lines records.now buffer.old).stage.buffer }
    ensures area_after { area.new ≡
        area_by (finding_size * count) (all_judged count lines records.now buffer.old) area.old }
{
    let mut run = Run::<0>::fresh(lines);
    pass::give_records(records, count, &mut lend!(run), buffer)?;
    let size = 12 * (count as usize);
    // stays: put byte by byte, since `copy_from_slice` of a length that is not known here calls memmove, which the archive for C would have
    // to find outside.
    codec::put(area, 0, &buffer[..size]);
    Ok(Totals {
        events: run.counts.events,
        fences: run.counts.fences,
        findings: run.counts.findings,
    })
}

// The records judged into a buffer of their own. Most traces are short, and a short buffer is ready sooner.
fn judge_part(
    records: &[u8],
    count: u32,
    lines: u16,
    area: &mut [u8],
) -> Result<Totals, TraceRefusal>
    requires { (finding_size * count ≤ long_buffer) × (finding_size * count ≤ length area.old) }
    ensures value { result ≡ verdict_by (all_judged count lines records.now (buffer_for count)) }
    ensures area_after { area.new ≡
        area_by (finding_size * count) (all_judged count lines records.now (buffer_for count)) area.old }
{
    if count <= 340 {
        let mut buffer = [0u8; 4080];
        return judge_by(records, count, lines, &mut buffer, area);
    }
    let mut buffer = [0u8; 65520];
    judge_by(records, count, lines, &mut buffer, area)
}

// The findings stay in a buffer until the last record has been taken, so that a refused trace leaves the area as it was.
pub fn judge(trace: &[u8], area: &mut [u8]) -> Result<Totals, TraceRefusal>
    ensures value { result ≡ verdict_of trace.now area.old }
    ensures area_after { area.new ≡ area_after trace.now area.old }
{
    let t = opening::open(trace)?;
    if area.len() < 12 * (t.count as usize) {
        return Err(TraceRefusal::from(Refusal::AreaTooShort));
    }
    judge_part(trace::part(trace, t.offset), t.count, t.lines, area)
}
