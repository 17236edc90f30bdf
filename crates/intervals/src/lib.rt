// Writes to the tables that no finding goes by: the epochs at which intervals opened and closed, and the first write-backs. Who asks no byte
// lends shorter tables, or empty ones: an entry that a table lacks is not written.
//
// stays: a store, a write-back and a fence are lent the tables that they change and read by themselves, as in `writes`, and where they write and
// how many entries are two numbers, as in `changed`.
#![tactic(auto)]

ghost use Rattle.std.specs.Prelude.{◌≡◌, ◌+◌, ◌-◌, ◌≤◌, min, length};
ghost use Rattle.window.specs.Window.{window_bytes, line_of};
ghost use Rattle.ranges.specs.Ranges.{line_count};
ghost use Rattle.tables.specs.Table.{changed, filled_bytes, in_tables};
ghost use Rattle.tables.specs.View.{lines_of};
ghost use Rattle.intervals.specs.Now.{back_now, epoch_now, backed_now, closed_now};

use event::Range;
use tables::Counts;

// How many of n entries from `at` on a table of this length has.
fn room(at: usize, n: usize, length: usize) -> usize
    ensures { result ≡ min n (length - at) }
{
    n.min(length.saturating_sub(at))
}

// A store: the intervals of its bytes open at this epoch.
pub fn open_bytes(opened: &mut [u16], a: Range, epoch: u16)
    ensures { opened.new ≡ filled_bytes epoch a opened.old }
{
    let at = a.address as usize;
    let n = room(at, a.length as usize, opened.len());
    // stays: slower (the bar stands in docs/PERFORMANCE.md): with `fill` of std in its place many fences take 15,965,155 instructions against
    // 15,744,652, and as a call of `fill` in `writes` it would be lent a part of a table that may lack it
    for i in 0..n {
        opened[at + i] = epoch;
    }
}

// The first write-back after a byte's last store, after the write-back of its line with this number.
fn back_now(number: u16, store: u16, old: u16) -> u16
    ensures { result ≡ back_now number store old }
{
    if old < store { number } else { old }
}

// The n bytes from `at` on after it.
fn write_back_bytes(written: &mut [u16], stored: &[u16; 4096], at: usize, n: usize, number: u16)
    requires { at + n ≤ 4096 }
    ensures { written.new ≡ changed (backed_now number stored.now) at n written.old }
{
    let m = room(at, n, written.len());
    for i in 0..m {
        let b = at + i;
        written[b] = back_now(number, stored[b], written[b]);
    }
}

// A write-back: of the bytes of the lines that its range touches. A range stands for the part of it that the tables have.
pub fn write_back(written: &mut [u16], stored: &[u16; 4096], a: Range, number: u16)
    ensures { written.new ≡
        changed (backed_now number stored.now) (window_bytes (line_of (in_tables a).address)) (window_bytes (line_count (in_tables a)))
        written.old }
{
    if written.len() == 0 {
        return;
    }
    let part = tables::in_tables(a);
    let at = window::line_of(part.address) as usize;
    let n = ranges::line_count(part) as usize;
    write_back_bytes(written, stored, at * 64, n * 64, number);
}

// The closing epoch of a byte after the fence with this number, which begins the epoch, where its closing fence is then `fence`.
fn epoch_now(number: u16, epoch: u16, fence: u16, old: u16) -> u16
    ensures { result ≡ epoch_now number epoch fence old }
{
    if fence == number { epoch } else { old }
}

// The first n bytes after it, or as many as the table has.
#[inline(never)] // one copy of the loop: in `pmexposure`, where it was compiled into `main`, it took an eighth more instructions
fn close_bytes(closed: &mut [u16], fenced: &[u16; 4096], n: usize, number: u16, epoch: u16)
    requires { n ≤ 4096 }
    ensures { closed.new ≡ changed (closed_now number epoch fenced.now) 0 n closed.old }
{
    for b in 0..closed.len().min(n) {
        closed[b] = epoch_now(number, epoch, fenced[b], closed[b]);
    }
}

// A fence: the bytes of the window, by the closing fences after it.
pub fn close_epochs(
    closed: &mut [u16],
    fenced: &[u16; 4096],
    counts: Counts,
    number: u16,
    epoch: u16,
)
    ensures { closed.new ≡ changed (closed_now number epoch fenced.now) 0 (window_bytes (lines_of counts)) closed.old }
{
    if closed.len() == 0 {
        return;
    }
    let lines = tables::lines_of(counts) as usize;
    close_bytes(closed, fenced, lines * 64, number, epoch);
}
