// The findings of an area that are shown, put on pages for print.
#![tactic(auto)]

ghost use Rattle.std.specs.Prelude.{◌≡◌, take, drop};
ghost use Rattle.text.specs.Text.{out, put};
ghost use Rattle.text.specs.Cursor.{Puts};
ghost use Rattle.finding_lines.specs.Rows.{rows_from};
ghost use Rattle.finding_lines.specs.Shown.{rows_left};
ghost use Rattle.page_layout.specs.Pages.{per_page, row_lines, page, pages_from, page_count};
ghost use Rattle.page_layout.specs.Rows.{shown as Rows·shown};

use finding_lines::Shown;
use text::Cursor;

// 1 for a finding of a kind that is shown, else 0.
// stays: a number for a flag, since the function is public and promises the number.
pub fn shown(kind: u8) -> u8
    ensures { result ≡ Rows·shown kind }
{
    u8::from(finding_lines::is_printed(kind))
}

// The pages of so many findings.
pub fn page_count(shown: u16) -> u32
    ensures { result ≡ page_count shown }
{
    let pages = ((shown as u32) + 57) / 58;
    pages.max(1)
}

// Puts the lines of the next findings that are shown, at most 58 of them.
fn put_rows(text: &mut Cursor<'_>, rows: &mut Shown<'_>)
    ensures lines { Puts (row_lines (take per_page (rows_left rows.old))) text.old text.new }
    ensures rest { rows_left rows.new ≡ drop per_page (rows_left rows.old) }
{
    for _ in 0..58u8 {
        match rows.next() {
            Some(row) => page_lines::row(text, row),
            None => return,
        }
    }
}

// Puts a page with the next findings that are shown.
fn put_page(text: &mut Cursor<'_>, rows: &mut Shown<'_>, number: u32, pages: u32)
    ensures lines { Puts (page number pages (take per_page (rows_left rows.old))) text.old text.new }
    ensures rest { rows_left rows.new ≡ drop per_page (rows_left rows.old) }
{
    page_lines::heading(text);
    put_rows(text, rows);
    page_lines::foot(text, number, pages);
}

// Puts so many pages with the first findings of the area at the start of the text.
pub fn put_pages(text: &mut [u8], findings: &[u8], count: u16, pages: u32) -> usize
    ensures { out text.new result ≡ put (pages_from pages 1 pages (rows_from 0 count findings.now)) (out text.old 0) }
{
    let mut printed = Cursor::new(text, 0);
    let mut rows = Shown::new(findings, count);
    for before in 0..pages {
        put_page(&mut printed, &mut rows, before + 1, pages);
    }
    printed.place()
}
