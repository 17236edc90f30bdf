// The mean exposure of a run: how many epochs its bytes stayed at risk, over the bytes whose interval is closed.
#![tactic(auto)]

ghost use Rattle.std.specs.Prelude.{◌≡◌, ◌-◌, ◌*◌, ◌≤◌};
ghost use Rattle.tables.specs.View.{lines_of, interval_in};
ghost use Rattle.tables.specs.Table.{table_bytes};
ghost use Rattle.exposure.specs.Exposure.{most_epochs, epochs_at_risk, is_closed, one_if_closed, sums_of, mean_of, exposure_in, exposure_of};

use event::{Interval, Refusal};
use tables::{Counts, Run};

// A mean: quotient × divisor + remainder epochs, over `divisor` bytes.
#[derive(Clone, Copy)]
pub struct Mean {
    pub quotient: u16,
    pub remainder: u16,
    pub divisor: u16,
}

// The epochs at risk of all bytes whose interval is closed, and the number of these bytes.
#[derive(Clone, Copy)]
pub struct Sums {
    pub epochs: u32,
    pub bytes: u16,
}

// How many epochs a byte was at risk: the closing epoch of its interval less the opening epoch, where it is closed. No run that grew from a
// fresh window closes an interval before it opened.
fn epochs_at_risk(i: Interval) -> u16
    ensures { result ≡ epochs_at_risk i }
{
    match i {
        Interval::Closed(opened, closed) => closed.saturating_sub(opened),
        Interval::None | Interval::Open(_) => 0,
    }
}

// Whether an interval is closed.
fn is_closed(i: Interval) -> bool
    ensures { result ≡ is_closed i }
{
    matches!(i, Interval::Closed(_, _))
}

// One for a byte whose interval is closed.
fn one_if_closed(i: Interval) -> u16
    ensures { result ≡ one_if_closed i }
{
    u16::from(is_closed(i))
}

// The sums over the first bytes of the tables, so many of them.
fn sum_bytes(
    bytes: u16,
    stored: &[u16; 4096],
    fenced: &[u16; 4096],
    opened: &[u16; 4096],
    closed: &[u16; 4096],
) -> Sums
    requires { bytes ≤ table_bytes }
    ensures value { result ≡ sums_of (interval_in stored.now fenced.now opened.now closed.now) bytes }
    ensures epochs_bound { result.epochs ≤ most_epochs * result.bytes }
{
    let mut epochs: u32 = 0;
    let mut count: u16 = 0;
    for b in 0..bytes as usize {
        // a byte that was never stored to adds nothing
        if stored[b] != 0 {
            let interval = tables::interval_from(stored[b], fenced[b], opened[b], closed[b]);
            epochs += epochs_at_risk(interval) as u32;
            count += one_if_closed(interval);
        }
    }
    Sums {
        epochs,
        bytes: count,
    }
}

// So many epochs divided by so many bytes; 17 where there is no byte.
fn mean_of(epochs: u32, bytes: u16) -> Result<Mean, Refusal>
    requires { epochs ≤ most_epochs * bytes }
    ensures { result ≡ mean_of epochs bytes }
{
    if bytes == 0 {
        return Err(Refusal::NoByteClosed);
    }
    let divisor = bytes as u32;
    Ok(Mean {
        quotient: (epochs / divisor) as u16,
        remainder: (epochs % divisor) as u16,
        divisor: bytes,
    })
}

// The mean exposure of a run whose numbers and tables the caller lends.
pub fn exposure_of(
    counts: Counts,
    stored: &[u16; 4096],
    fenced: &[u16; 4096],
    opened: &[u16; 4096],
    closed: &[u16; 4096],
) -> Result<Mean, Refusal>
    ensures { result ≡ exposure_in (lines_of counts) (interval_in stored.now fenced.now opened.now closed.now) }
{
    let bytes = 64 * tables::lines_of(counts);
    let s = sum_bytes(bytes, stored, fenced, opened, closed);
    mean_of(s.epochs, s.bytes)
}

// The mean exposure of a run. The run may go on.
pub fn exposure(run: &Run<4096>) -> Result<Mean, Refusal>
    ensures { result ≡ exposure_of run.now }
{
    exposure_of(
        run.counts,
        &run.stored,
        &run.fenced,
        &run.opened,
        &run.closed,
    )
}
