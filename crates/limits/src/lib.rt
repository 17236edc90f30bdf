// The limits 9, 18 and 10 to 12 on an event that is given to a run, by the numbers of the run that they ask for.
#![tactic(auto)]

ghost use Rattle.std.specs.Prelude.{◌≡◌, cond, eqb, leb, Ok, Err};
ghost use Rattle.history.specs.Refused.{most_depth, refusal_by};
ghost use Rattle.limits.specs.Limits.{numbers_of, state_check};

use event::{Event, Refusal};

// The limit 11: a log or an end asks for an open transaction.
fn check_open(depth: u16) -> Result<(), Refusal>
    ensures { result ≡ cond (eqb depth 0) (Err Refusal.NoTransaction) (Ok tt) }
{
    if depth == 0 {
        Err(Refusal::NoTransaction)
    } else {
        Ok(())
    }
}

// The limit 12: transactions nest to depth 8.
fn check_depth(depth: u16) -> Result<(), Refusal>
    ensures { result ≡ cond (leb most_depth depth) (Err Refusal.TooDeep) (Ok tt) }
{
    if 8 <= depth {
        Err(Refusal::TooDeep)
    } else {
        Ok(())
    }
}

// The limits 10, 11 and 12.
fn check_state(events: u16, depth: u16, e: Event) -> Result<(), Refusal>
    ensures { result ≡ state_check events depth e }
{
    if events == 65535 {
        return Err(Refusal::EventsExhausted);
    }
    match e {
        Event::Begin => check_depth(depth),
        Event::Log(_) | Event::End => check_open(depth),
        _ => Ok(()),
    }
}

// The first of the limits 9, 18 and 10 to 12 that an event breaks, in a window of so many lines, after so many events, with so many
// transactions open.
pub fn check_event(lines: u16, events: u16, depth: u16, e: Event) -> Result<(), Refusal>
    ensures { result ≡ refusal_by (numbers_of lines events depth) e }
{
    ranges::check_ranges(lines, e)?;
    check_state(events, depth, e)
}
