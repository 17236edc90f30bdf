// Writes to tables that the caller lends. A range stands for the part of it that the tables have.
//
// stays: a store, a log and a fence are lent the tables that they change and read by themselves: over a run their clauses would have to name
// every part that stays. Where they are filled and how many entries are two numbers, as in `filled`.
#![tactic(auto)]

ghost use Rattle.std.specs.Prelude.{◌≡◌, ◌+◌, ◌-◌, ◌≤◌, length};
ghost use Rattle.window.specs.Window.{window_bytes};
ghost use Rattle.tables.specs.Table.{entry, changed, filled, filled_bytes, filled_lines, in_tables};
ghost use Rattle.tables.specs.View.{lines_of};
ghost use Rattle.writes.specs.Fenced.{fence_now, fenced_by};

use event::Range;
use searches::Test;
use tables::Counts;

// The n entries from `at` on become x.
fn fill(xs: &mut [u16], at: usize, n: usize, x: u16)
    requires { at + n ≤ length xs.old }
    ensures { xs.new ≡ filled x at n xs.old }
{
    // stays: slower (the bar stands in docs/PERFORMANCE.md): with `fill` of std small stores take 1,532,569 instructions against 1,458,536, many fences 16,248,654 against 15,744,652
    for i in 0..n {
        xs[at + i] = x;
    }
}

// The entries of a range's bytes become x.
pub fn fill_bytes(xs: &mut [u16; 4096], a: Range, x: u16)
    ensures { xs.new ≡ filled_bytes x (in_tables a) xs.old }
{
    let part = tables::in_tables(a);
    fill(xs, part.address as usize, part.length as usize, x);
}

// The entries of the lines that a range touches become x.
pub fn fill_lines(xs: &mut [u16; 64], a: Range, x: u16)
    ensures { xs.new ≡ filled_lines x (in_tables a) xs.old }
{
    let part = tables::in_tables(a);
    let at = window::line_of(part.address) as usize;
    let n = ranges::line_count(part) as usize;
    fill(xs, at, n, x);
}

// A store: the last of its bytes and of its lines.
pub fn store(number: u16, stored: &mut [u16; 4096], dirtied: &mut [u16; 64], a: Range)
    ensures stored_after { stored.new ≡ filled_bytes number (in_tables a) stored.old }
    ensures dirtied_after { dirtied.new ≡ filled_lines number (in_tables a) dirtied.old }
{
    fill_bytes(stored, a, number);
    fill_lines(dirtied, a, number);
}

// The closing fence of a byte after the fence with this number, where its line was last written back at `back`.
fn fence_now(back: u16, number: u16, store: u16, fence: u16) -> u16
    ensures { result ≡ fence_now back number store fence }
{
    // no branch: both are looked at
    let closes = (fence < store) & (store < back);
    if closes { number } else { fence }
}

// The bytes of one line after the fence.
fn close_line(fenced: &mut [u16; 4096], stored: &[u16; 4096], at: usize, back: u16, number: u16)
    requires { at + 64 ≤ 4096 }
    ensures { fenced.new ≡ changed (λ b old. fence_now back number (entry stored.now b) old) at 64 fenced.old }
{
    for i in 0..64 {
        let b = at + i;
        fenced[b] = fence_now(back, number, stored[b], fenced[b]);
    }
}

// The bytes of some lines after the fence: of each that was written back since the last fence.
fn close_some(
    fenced: &mut [u16; 4096],
    stored: &[u16; 4096],
    backed: &[u16; 64],
    from: usize,
    to: usize,
    fence: u16,
    number: u16,
)
    requires { (from ≤ to) × (to ≤ 64) }
    ensures { fenced.new ≡
        changed (fenced_by fence number stored.now backed.now) (window_bytes from) (window_bytes (to - from))
        fenced.old }
{
    for l in from..to {
        let back = backed[l];
        if fence < back {
            let at = window::line_start(l as u16) as usize;
            close_line(fenced, stored, at, back, number);
        }
    }
}

// The bytes of the window after the fence. Eight lines of which none was written back since the last fence are passed over.
#[inline(always)] // into each loop over records, where it is known that the tables lie apart
pub fn close_lines(
    fenced: &mut [u16; 4096],
    stored: &[u16; 4096],
    backed: &[u16; 64],
    counts: Counts,
    number: u16,
)
    ensures { fenced.new ≡
        changed (fenced_by counts.fence number stored.now backed.now) 0 (window_bytes (lines_of counts))
        fenced.old }
{
    let fence = counts.fence;
    let end = tables::lines_of(counts) as usize;
    let mut l = 0;
    // stays: slower (the bar stands in docs/PERFORMANCE.md): with a `for` over the groups large persisted takes 631,988 instructions against 606,776
    while l + 8 <= end {
        if searches::any_of_eight(Test::Since(fence), backed, backed, l) {
            close_some(fenced, stored, backed, l, l + 8, fence, number);
        }
        l += 8;
    }
    close_some(fenced, stored, backed, l, end, fence, number);
}
