// Findings on pages.
ghost use Rattle.std.specs.Prelude.{◌≡◌, length};
ghost use Rattle.text.specs.Text.{out, put};
ghost use Rattle.reports.specs.Pages.{report_of};

use event::numbers;
use text::Cursor;

// Puts the pages or the refusal at the start of the text, and answers the length.
pub fn put_report(area: &[u8], text: &mut [u8]) -> usize
    ensures { out text.new result ≡ put (report_of area.now (length text.old)) (out text.old 0) }
{
    match pages::pages(area, text) {
        Err(r) => {
            let mut printed = Cursor::new(text, 0);
            lines::refusal(&mut printed, numbers::number(r.refusal), r.position as u32);
            printed.place()
        }
        Ok(length) => length as usize,
    }
}
