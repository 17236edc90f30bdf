// The calls that lay out the findings, each with its line printed.
ghost use Rattle.std.specs.Prelude.{◌≡◌, min, length};
ghost use Rattle.pages.specs.Paged.{paged_of};
ghost use Rattle.page_runs.specs.Laying.{laid_out, written_of, is_layout, area_after_call};

use pages::PageRefusal;
use std::io::Write;

// Lays out the findings in the page area, each byte of which is A5h before.
fn lay_out(findings: &[u8], area: &mut [u8]) -> Result<u32, PageRefusal>
    ensures value { result ≡ paged_of findings.now (length area.old) }
    ensures area_after { area.new ≡ laid_out findings.now area.old }
{
    writer_calls::setting::fill(area, 165, 0);
    pages::pages(findings, area)
}

// The line: the lengths of both areas, the answer, and the sum of the page area's bytes.
fn print_line<W: Write>(out: &mut W, findings: &[u8], area: &[u8], p: Result<u32, PageRefusal>) {
    let _ = write!(out, "pages of {} bytes in {}", findings.len(), area.len());
    call_lines::reply(out, replies::of(p));
    let _ = writeln!(out, " sum {}", writer_calls::changes::sum(area));
}

// How many bytes of the page area were written.
fn written(area: &[u8], p: Result<u32, PageRefusal>) -> usize
    ensures { result ≡ min (written_of p) (length area.now) }
{
    match p {
        Err(_) => 0,
        Ok(length) => area.len().min(length as usize),
    }
}

// Whether a call of this kind lays out the findings.
// stays: the kind is a byte of the file, of which `area_after_call` speaks: an enum of two calls is no plainer, a type and a match that makes it
fn is_layout(kind: u8) -> bool
    ensures { result ≡ is_layout kind }
{
    kind == 4 || kind == 5
}

// The call of this kind: 4 lays out the findings, 5 prints the pages too. Any other changes nothing.
pub fn call<W: Write>(out: &mut W, findings: &[u8], area: &mut [u8], kind: u8)
    ensures { area.new ≡ area_after_call kind findings.now area.old }
{
    if !is_layout(kind) {
        return;
    }
    let p = lay_out(findings, area);
    print_line(out, findings, area, p);
    if kind == 5 {
        let n = written(area, p);
        let _ = out.write_all(&area[..n]);
    }
}
