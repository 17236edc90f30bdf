// The findings of an area laid out on pages for print, in an area that the caller lends.
#![tactic(auto)]

ghost use Rattle.std.specs.Prelude.{◌≡◌, ◌+◌, ◌*◌, ◌%◌, length};
ghost use Rattle.history.specs.Refused.{first_broken};
ghost use Rattle.finding_lines.specs.Rows.{rows_from};
ghost use Rattle.page_layout.specs.Pages.{page_count, findings_in};
ghost use Rattle.pages.specs.Answers.{about_finding};
ghost use Rattle.pages.specs.Limits.{bad_length, damage_limits};
ghost use Rattle.pages.specs.Paged.{unless_damaged, in_room, paged_of, page_area_after};

use event::Refusal;
use finding_lines::Shown;

// A refusal, and the position of the finding that it is about, from 1, or 0 for the findings area as a whole and for the page area.
#[derive(Clone, Copy)]
pub struct PageRefusal {
    pub refusal: Refusal,
    pub position: u16,
}

// A refusal that is about no finding.
impl From<Refusal> for PageRefusal {
    ghost from_gives = { λ x r. r ≡ about_finding x 0 };

    fn from(refusal: Refusal) -> PageRefusal {
        PageRefusal {
            refusal,
            position: 0,
        }
    }
}

// What is damaged in the finding that has so many before it, if anything is.
fn damage(findings: &[u8], before: u16) -> Result<(), Refusal>
    ensures { result ≡ first_broken (damage_limits before findings.now) }
{
    let place = 12 * (before as usize);
    if 8 < codec::byte_at(findings, place) {
        return Err(Refusal::UnknownKind);
    }
    if codec::byte_at(findings, place + 1) != 0 {
        return Err(Refusal::FieldSet);
    }
    Ok(())
}

// The refusal of the first damaged finding of so many; the answer given, where none is damaged.
fn unless_damaged(
    findings: &[u8],
    count: u16,
    answer: Result<u32, PageRefusal>,
) -> Result<u32, PageRefusal>
    ensures { result ≡ unless_damaged 0 count findings.now answer }
{
    for before in 0..count {
        match damage(findings, before) {
            Ok(()) => {}
            Err(refusal) => {
                return Err(PageRefusal {
                    refusal,
                    position: before + 1,
                })
            }
        }
    }
    answer
}

// How many of the first findings are shown.
fn count_shown(findings: &[u8], count: u16) -> u16
    ensures { result ≡ length (rows_from 0 count findings.now) }
{
    Shown::new(findings, count).count() as u16
}

// The length of the pages of so many findings: each page has a heading and a foot, and a line has 62 bytes.
fn length_of(shown: u16) -> u32
    ensures { result ≡ 62 * (2 * page_count shown + shown) }
{
    62 * (2 * page_layout::page_count(shown) + (shown as u32))
}

// How many findings the area has, where it is not refused as a whole.
fn findings_in(findings: &[u8]) -> u16
    ensures { result ≡ findings_in findings.now % 65536 }
{
    ((findings.len() / 12) % 65536) as u16
}

// Whether the area has no whole number of findings, or more than 65,535.
fn is_bad_length(findings: &[u8]) -> bool
    ensures { result ≡ bad_length findings.now }
{
    findings.len() % 12 != 0 || 65535 < findings.len() / 12
}

// Pages of so many bytes in a page area of so many.
fn in_room(room: usize, length: u32) -> Result<u32, PageRefusal>
    ensures { result ≡ in_room room length }
{
    if room < (length as usize) {
        return Err(PageRefusal::from(Refusal::PageAreaTooShort));
    }
    Ok(length)
}

// What the pages of the area in so many bytes are refused by, or their length. Nothing is written.
fn checked(findings: &[u8], room: usize) -> Result<u32, PageRefusal>
    ensures { result ≡ paged_of findings.now room }
{
    if is_bad_length(findings) {
        return Err(PageRefusal::from(Refusal::LengthDiffers));
    }
    let count = findings_in(findings);
    let length = length_of(count_shown(findings, count));
    unless_damaged(findings, count, in_room(room, length))
}

// Lays out the findings of an area on pages, at the start of the page area. Answers the length written, or why the area is refused;
// the page area is then as it was. Its bytes beyond the length do not change.
pub fn pages(findings: &[u8], area: &mut [u8]) -> Result<u32, PageRefusal>
    ensures value { result ≡ paged_of findings.now (length area.old) }
    ensures area_after { area.new ≡ page_area_after findings.now area.old }
{
    let length = checked(findings, area.len())?;
    let count = findings_in(findings);
    let shown = count_shown(findings, count);
    page_layout::put_pages(area, findings, count, page_layout::page_count(shown));
    Ok(length)
}
