// The judge, the mean exposure, the persist interval of a byte, and the pages for programs in C or Rust, each with its answer in numbers.
// The names of calls start with the library's, since a name is the whole program's, as in C. What each call answers, and what the caller has
// to see to (no null pointer, no byte shared), stands in include/pmjudge.h.
#![tactic(auto)]

pub mod writing; // the writer of traces

ghost use Rattle.std.specs.Prelude.{◌≡◌, ◌≤◌, ◌-◌, length};
ghost use Rattle.verdict.specs.Verdict.{verdict_of, verdict_reply, area_after};
ghost use Rattle.trace_exposure.specs.TraceExposure.{trace_exposure_of, trace_exposure_reply};
ghost use Rattle.trace_interval.specs.TraceInterval.{trace_interval_of, trace_interval_reply};
ghost use Rattle.pages.specs.Paged.{paged_of, paged_reply, page_area_after};
ghost use Rattle.pmjudge_c.specs.Answer.{with_values, five_numbers, three_numbers};
ghost use Rattle.pmjudge_c.specs.Interval.{places_of, eleven_numbers};

use replies::Numbers;

// The numbers of an answer with so many places: the refusal's two, and the first values.
fn first_values<const N: usize>(n: Numbers) -> [u32; N]
    requires small { 2 ≤ N }
    requires enough { N ≤ 10 }
    ensures { result ≡ with_values (N - 2) n }
{
    let mut all = [0; N];
    let places = &mut all[..];
    places[0] = u32::from(n.number);
    places[1] = n.at;
    places[2..].copy_from_slice(&n.values[..N - 2]);
    all
}

// The numbers of an answer to a byte asked after a trace, each at its place.
fn places(n: Numbers) -> [u32; 11]
    ensures { result ≡ places_of n }
{
    let number = u32::from(n.number);
    let [a, b, c, d, e, f, g, h] = n.values;
    match n.count {
        5 => [number, n.at, 1, a, 0, b, c, 0, d, e, 0],
        8 => [number, n.at, 2, a, b, c, d, e, f, g, h],
        _ => [number, n.at, 0, 0, 0, 0, 0, 0, 0, 0, 0],
    }
}

// Judges a trace into a findings area. A call takes about 95 KB of the caller's stack: 65,520 bytes for findings and 24,832 for tables, and
// little more.
#[unsafe(no_mangle)]
pub extern "C" fn pmjudge_judge(trace: &[u8], area: &mut [u8], answer: &mut [u32; 5])
    ensures answer_after { answer.new ≡ five_numbers (verdict_reply (verdict_of trace.now area.old)) }
    ensures area_after { area.new ≡ area_after trace.now area.old }
{
    let v = judge::judge(trace, area);
    *answer = first_values(replies::of(v));
}

// Works out the mean exposure of a trace.
#[unsafe(no_mangle)]
pub extern "C" fn pmjudge_exposure(trace: &[u8], answer: &mut [u32; 5])
    ensures { answer.new ≡ five_numbers (trace_exposure_reply (trace_exposure_of trace.now)) }
{
    let e = trace_exposure::exposure(trace);
    *answer = first_values(replies::of(e));
}

// Works out the persist interval of a byte after a trace.
#[unsafe(no_mangle)]
pub extern "C" fn pmjudge_interval(trace: &[u8], byte: u16, answer: &mut [u32; 11])
    ensures { answer.new ≡ eleven_numbers (trace_interval_reply (trace_interval_of trace.now byte)) }
{
    let t = trace_interval::interval(trace, byte);
    *answer = places(replies::of(t));
}

// Lays out the findings of an area on pages, in a page area.
#[unsafe(no_mangle)]
pub extern "C" fn pmjudge_pages(findings: &[u8], area: &mut [u8], answer: &mut [u32; 3])
    ensures answer_after { answer.new ≡ three_numbers (paged_reply (paged_of findings.now (length area.old))) }
    ensures area_after { area.new ≡ page_area_after findings.now area.old }
{
    let p = pages::pages(findings, area);
    *answer = first_values(replies::of(p));
}
