// The lines of a page.
#![tactic(auto)]

ghost use Rattle.std.specs.Prelude.{◌++◌};
ghost use Rattle.text.specs.Text.{ascii, decimal};
ghost use Rattle.text.specs.Field.{padded};
ghost use Rattle.text.specs.Cursor.{Puts};
ghost use Rattle.finding_lines.specs.Lines.{name_of};
ghost use Rattle.page_lines.specs.Lines.{values, row_line};
ghost use Rattle.page_lines.specs.Lines.{heading as Lines·heading, foot as Lines·foot};

use event::Fields;
use finding_lines::Row;
use text::Cursor;

// The name of a finding's kind behind two blanks, in a field of 16 columns.
// stays: the kind as a number, as `finding_lines::name` takes it
fn put_name(text: &mut Cursor<'_>, kind: u8)
    ensures { Puts (padded 16 (ascii "  " ++ name_of kind)) text.old text.new }
{
    text.put(b"  ");
    text.left(14, finding_lines::name(kind));
}

// Lost, kept, moment and store, each right in a field of 7 columns.
// stays: beside `put_values` in finding_lines, no twin: that one puts a blank before each. One function for both would take what puts a number as a
// closure, and is no plainer than four calls.
fn put_values(text: &mut Cursor<'_>, f: Fields)
    ensures { Puts (values (decimal f.lost) (decimal f.kept) (decimal f.moment) (decimal f.store)) text.old text.new }
{
    text.right(7, f.lost as u32);
    text.right(7, f.kept as u32);
    text.right(7, f.moment as u32);
    text.right(7, f.store as u32);
}

// The line of a finding.
pub fn row(text: &mut Cursor<'_>, row: Row)
    ensures { Puts (row_line row) text.old text.new }
{
    text.right(6, row.event);
    text.right(11, row.site as u32);
    put_name(text, row.fields.kind);
    put_values(text, row.fields);
    text.put(b"\n");
}

// The names of the columns.
pub fn heading(text: &mut Cursor<'_>)
    ensures { Puts Lines·heading text.old text.new }
{
    text.put(b" event       site  finding          lost   kept moment  store\n");
}

// `page 2 of 3`
pub fn foot(text: &mut Cursor<'_>, page: u32, pages: u32)
    ensures { Puts (Lines·foot page pages) text.old text.new }
{
    let mut line = [b' '; 61];
    let mut words = Cursor::new(&mut line, 0);
    words.put(b"page ");
    words.number(page);
    words.put(b" of ");
    words.number(pages);
    text.put(&line);
    text.put(b"\n");
}
