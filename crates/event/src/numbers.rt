// The paper's number for each case of an event, a finding and a refusal.
ghost use Rattle.std.specs.Prelude.{◌≡◌};
ghost use Rattle.event.specs.Numbers.{kind_of, fields_with, fields_of, number_of};

use crate::{Event, Fields, Finding, Refusal};

// An event's kind, 1 to 8.
// stays: a number, which a record's bytes begin with, and the only caller lays it down. Events carry ranges, so they have none for `as u8`.
pub fn kind(e: Event) -> u8
    ensures { result ≡ kind_of e }
{
    match e {
        Event::Store(_) => 1,
        Event::WriteBack(_) => 2,
        Event::Fence => 3,
        Event::Begin => 4,
        Event::Log(_) => 5,
        Event::End => 6,
        Event::Persisted(_) => 7,
        Event::Ordered(_, _) => 8,
    }
}

// The fields of a finding that has lost alone.
// stays: the kind as a number, which is a field of the result
fn only_lost(kind: u8, lost: u16) -> Fields
    ensures { result ≡ fields_with kind lost 0 0 0 }
{
    Fields {
        kind,
        lost,
        ..Fields::default()
    }
}

// A finding's kind and fields.
impl From<Finding> for Fields {
    ghost from_gives = { λ f x. x ≡ fields_of f };

    fn from(f: Finding) -> Fields {
        let none = Fields::default();
        match f {
            Finding::None => none,
            Finding::Holds => Fields { kind: 1, ..none },
            Finding::Lost {
                lost,
                moment,
                store,
            } => Fields {
                kind: 2,
                lost,
                moment,
                store,
                ..none
            },
            Finding::OutOfOrder {
                lost,
                kept,
                moment,
                store,
            } => Fields {
                kind: 3,
                lost,
                kept,
                moment,
                store,
            },
            Finding::Unlogged { lost } => only_lost(4, lost),
            Finding::Clean { lost } => only_lost(5, lost),
            Finding::WrittenTwice { lost } => only_lost(6, lost),
            Finding::LoggedTwice { lost } => only_lost(7, lost),
            Finding::Empty => Fields { kind: 8, ..none },
        }
    }
}

// A refusal's number, 1 to 18 without 8.
// stays: what may not change, a public function that docs/DECISIONS.md (113) names. Its numbers stand at the cases of Refusal.
pub fn number(r: Refusal) -> u8
    ensures { result ≡ number_of r }
{
    r as u8
}
