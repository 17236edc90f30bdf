// The lines of findings.
#![tactic(auto)]

ghost use Rattle.std.specs.Prelude.{◌≡◌};
ghost use Rattle.text.specs.Cursor.{Puts};
ghost use Rattle.finding_lines.specs.Lines.{name_of, is_printed, field, values, columns, finding_line};
ghost use Rattle.finding_lines.specs.Rows.{row_at, rows_from};
ghost use Rattle.finding_lines.specs.Area.{lines_from};

use event::Fields;
use text::Cursor;

// A finding of an area, with its event's number and site.
#[derive(Clone, Copy)]
pub struct Row {
    pub event: u32,
    pub site: u16,
    pub fields: Fields,
}

// The name of a finding's kind; a number that is no kind has none.
// stays: a number here and in `is_printed`, since both promise an answer for every byte of an area, also one that is no kind
pub fn name(kind: u8) -> &'static [u8]
    ensures { result.now ≡ name_of kind }
{
    match kind {
        0 => b"none",
        1 => b"holds",
        2 => b"lost",
        3 => b"out-of-order",
        4 => b"unlogged",
        5 => b"clean",
        6 => b"written-twice",
        7 => b"logged-twice",
        8 => b"empty",
        _ => b"",
    }
}

// Whether findings of this kind are printed.
pub fn is_printed(kind: u8) -> bool
    ensures { result ≡ is_printed kind }
{
    1 <= kind && kind <= 8
}

// A blank and a number.
fn put_field(text: &mut Cursor<'_>, n: u16)
    ensures { Puts (field n) text.old text.new }
{
    text.put(b" ");
    text.number(n as u32);
}

// The four fields of a finding: lost, kept, moment, store.
fn put_values(text: &mut Cursor<'_>, f: Fields)
    ensures { Puts (values f) text.old text.new }
{
    put_field(text, f.lost);
    put_field(text, f.kept);
    put_field(text, f.moment);
    put_field(text, f.store);
}

// The columns of a finding that is printed.
fn put_columns(text: &mut Cursor<'_>, row: Row)
    ensures { Puts (columns row.event row.site row.fields) text.old text.new }
{
    text.number(row.event);
    put_field(text, row.site);
    text.put(b" ");
    text.put(name(row.fields.kind));
    put_values(text, row.fields);
    text.put(b"\n");
}

// `5 14 out-of-order 0 64 2 1`, or nothing for the finding none.
pub fn finding(text: &mut Cursor<'_>, row: Row)
    ensures { Puts (finding_line row.event row.site row.fields) text.old text.new }
{
    if is_printed(row.fields.kind) {
        put_columns(text, row);
    }
}

// The finding of an area that has so many before it.
pub fn row_at(area: &[u8], before: u16) -> Row
    ensures { result ≡ row_at before area.now }
{
    let place = 12 * (before as u32);
    Row {
        event: (before as u32) + 1,
        site: codec::u16_at(area, (place as usize) + 10),
        fields: codec::fields_at(area, place),
    }
}

// The first findings of an area, so many of them, with the event numbers from 1 on.
pub fn findings(text: &mut Cursor<'_>, area: &[u8], count: u16)
    ensures { Puts (lines_from 0 count area.now) text.old text.new }
{
    for i in 0..count {
        finding(text, row_at(area, i));
    }
}

// Of so many first findings of an area, those that are shown, one after another.
#[derive(Drop)]
pub struct Shown<'a> {
    area: &'a [u8],
    before: u16,
    count: u16,
}

impl<'a> Shown<'a> {
    ghost use Rattle.finding_lines.specs.Shown.{rows_left};

    pub fn new(area: &'a [u8], count: u16) -> Shown<'a>
        ensures { rows_left result ≡ rows_from 0 count area.now }
    {
        Shown {
            area,
            before: 0,
            count,
        }
    }
}

impl Iterator for Shown<'_> {
    type Item = Row;

    ghost use Rattle.std.specs.Iterator.{YieldsFirst, item_count};
    ghost use Rattle.finding_lines.specs.Shown.{rows_left};

    ghost next_gives = { YieldsFirst rows_left };

    ghost remaining = { item_count rows_left };

    fn next(&mut self) -> Option<Row> {
        // stays: the place is the iterator's own state, which each turn moves on: a `for` would count beside it, and is no plainer
        while self.before < self.count {
            let before = self.before;
            self.before += 1;
            // the kind alone first: in most areas few findings are shown, and a row is made of those only
            if is_printed(codec::byte_at(self.area, 12 * (before as usize))) {
                return Some(row_at(self.area, before));
            }
        }
        None
    }
}
