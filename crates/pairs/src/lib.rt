// The search over pairs of bytes: the lowest that a crash may keep, and the lowest that it loses with it. A range stands for the part of
// it that the tables have.
#![tactic(auto)]

ghost use Rattle.std.specs.Prelude.{◌≡◌, ◌+◌, ◌≤◌};
ghost use Rattle.history.specs.Found.{lowest_pair};
ghost use Rattle.tables.specs.Table.{in_tables};
ghost use Rattle.pairs.specs.Pairs.{pair_searched, is_broken, lost_with, broken_pair};

use event::Range;
use searches::Places;

// A byte that a crash may keep, and one that it loses with it.
#[derive(Clone, Copy, Debug, PartialEq, Eq)]
pub struct Pair {
    pub kept: u16,
    pub lost: u16,
}

// What is asked of a byte that a crash may keep: its last store, its line and its word.
#[derive(Clone, Copy)]
struct Kept {
    store: u16,
    line: u16,
    word: u16,
}

// Whether a crash may keep one byte and lose another. There is no branch, so that several bytes can be looked at at once.
fn is_broken(kept_store: u16, lost_store: u16, one_line: bool, one_word: bool, fence: u16) -> bool
    ensures { result ≡ is_broken kept_store lost_store one_line one_word fence }
{
    // With a kept store that is no 0 neither of these passes at a lost one that is.
    let later = kept_store < lost_store;
    let torn = (kept_store == lost_store) & !one_word;
    let open = (lost_store != 0) & ((fence < lost_store) | (kept_store < fence));
    (kept_store != 0) & ((one_line & (later | torn)) | (!one_line & open))
}

// The bytes that it may lose while it keeps that one.
#[derive(Drop)]
struct Losable<'a> {
    stored: &'a [u16; 4096],
    fenced: &'a [u16; 4096],
    kept: Kept,
}

impl<'a> Places for Losable<'a> {
    ghost count = { λ _. 4096 };

    ghost passing = { λ l. lost_with l.stored.now l.fenced.now l.kept };

    fn passes(&self, b: usize) -> bool {
        let lost = b as u16;
        let one_line = self.kept.line == lost / 64;
        let one_word = self.kept.word == lost / 8;
        is_broken(
            self.kept.store,
            self.stored[b],
            one_line,
            one_word,
            self.fenced[b],
        )
    }
}

// stays: two tables, and where and how many for the bytes of both ranges: `broken_pair` and `lowest_pair` speak of these, and so does the
// clause, which over a run would say no more.
// The lowest of the m bytes from `start` on that a crash may keep while it loses one of the n from `at` on, and the lowest that it
// loses with it.
fn first_broken(
    stored: &[u16; 4096],
    fenced: &[u16; 4096],
    at: usize,
    n: usize,
    start: usize,
    m: usize,
) -> Option<Pair>
    requires { (at + n ≤ 4096) × (start + m ≤ 4096) }
    ensures { result ≡
        pair_searched
        (lowest_pair
        (broken_pair stored.now fenced.now)
        (record { address = at; length = n })
        start
        m) }
{
    let mut found = None;
    // stays: loops left by a label are the form that document 01 asks for (docs/CLAIMS.md), and not one search inside another
    'kept: for kept in start..start + m {
        let store = stored[kept];
        if store != 0 {
            let byte = kept as u16;
            let asked = Kept {
                store,
                line: byte / 64,
                word: byte / 8,
            };
            let losable = Losable {
                stored,
                fenced,
                kept: asked,
            };
            for lost in searches::skip(&losable, at, n)..at + n {
                if losable.passes(lost) {
                    found = Some(Pair {
                        kept: byte,
                        lost: lost as u16,
                    });
                    break 'kept;
                }
            }
        }
    }
    found
}

// The lowest byte of B that a crash may keep while it loses one of A, and the lowest that it loses with it.
pub fn first_pair(stored: &[u16; 4096], fenced: &[u16; 4096], a: Range, b: Range) -> Option<Pair>
    ensures { result ≡
        pair_searched
        (lowest_pair
        (broken_pair stored.now fenced.now)
        (in_tables a)
        (in_tables b).address
        (in_tables b).length) }
{
    let lost = tables::in_tables(a);
    let kept = tables::in_tables(b);
    first_broken(
        stored,
        fenced,
        lost.address as usize,
        lost.length as usize,
        kept.address as usize,
        kept.length as usize,
    )
}
