// The lines of a byte's persist interval.
#![tactic(auto)]

ghost use Rattle.text.specs.Cursor.{Puts};
ghost use Rattle.interval_lines.specs.Lines.{open_line, closed_line, site_line, site_lines, interval_text};

use event::NamedInterval;
use text::Cursor;
use trace_interval::Sites;

// `open 0 store 2 write-back 7`
fn put_open(text: &mut Cursor<'_>, opened: u16, store: u16, back: u16)
    ensures { Puts (open_line opened store back) text.old text.new }
{
    text.put(b"open ");
    text.number(opened as u32);
    text.put(b" store ");
    text.number(store as u32);
    text.put(b" write-back ");
    text.number(back as u32);
    text.put(b"\n");
}

// `closed 0 2 store 2 write-back 7 fence 8`
fn put_closed(text: &mut Cursor<'_>, opened: u16, closed: u16, store: u16, back: u16, fence: u16)
    ensures { Puts (closed_line opened closed store back fence) text.old text.new }
{
    text.put(b"closed ");
    text.number(opened as u32);
    text.put(b" ");
    text.number(closed as u32);
    text.put(b" store ");
    text.number(store as u32);
    text.put(b" write-back ");
    text.number(back as u32);
    text.put(b" fence ");
    text.number(fence as u32);
    text.put(b"\n");
}

// `event 7 site 3`; nothing for an event 0.
fn put_site(text: &mut Cursor<'_>, event: u16, site: u16)
    ensures { Puts (site_line event site) text.old text.new }
{
    if event != 0 {
        lines::phrase(text, b"event ", event as u32, b" site ", site as u32, b"\n");
    }
}

// The sites of the store, the write-back and the fence, a line for each that is named.
fn put_sites(text: &mut Cursor<'_>, store: u16, back: u16, fence: u16, s: Sites)
    ensures { Puts (site_lines store back fence s) text.old text.new }
{
    put_site(text, store, s.store);
    put_site(text, back, s.back);
    put_site(text, fence, s.fence);
}

// The rest of the byte's line, and the sites of its events.
pub fn put_interval(text: &mut Cursor<'_>, i: NamedInterval, s: Sites)
    ensures { Puts (interval_text i s) text.old text.new }
{
    match i {
        NamedInterval::None => text.put(b"none\n"),
        NamedInterval::Open {
            opened,
            store,
            back,
        } => {
            put_open(text, opened, store, back);
            put_sites(text, store, back, 0, s);
        }
        NamedInterval::Closed {
            opened,
            closed,
            store,
            back,
            fence,
        } => {
            put_closed(text, opened, closed, store, back, fence);
            put_sites(text, store, back, fence, s);
        }
    }
}
