// The lines around the findings.
#![tactic(auto)]

ghost use Rattle.std.specs.Prelude.{◌++◌};
ghost use Rattle.text.specs.Text.{decimal};
ghost use Rattle.text.specs.Cursor.{Puts};
ghost use Rattle.lines.specs.Lines.{head_line, foot_line, refusal_line};

use text::Cursor;

// A number between two words, and another between the second and a third.
pub fn phrase(text: &mut Cursor<'_>, first: &[u8], m: u32, second: &[u8], n: u32, third: &[u8])
    ensures { Puts (first.now ++ decimal m ++ second.now ++ decimal n ++ third.now) text.old text.new }
{
    text.put(first);
    text.number(m);
    text.put(second);
    text.number(n);
    text.put(third);
}

// `trace 9 events 2 lines`
// stays: `as u32` here and in the other lines, since `u32::from` is no plainer: the check reads `as` by itself, and of each `from` it
// takes an equation, which each answer would have to name.
pub fn head(text: &mut Cursor<'_>, events: u16, lines: u16)
    ensures { Puts (head_line events lines) text.old text.new }
{
    phrase(
        text,
        b"trace ",
        events as u32,
        b" events ",
        lines as u32,
        b" lines\n",
    );
}

// `end 4`
pub fn foot(text: &mut Cursor<'_>, findings: u16)
    ensures { Puts (foot_line findings) text.old text.new }
{
    text.put(b"end ");
    text.number(findings as u32);
    text.put(b"\n");
}

// `refused 9 at 3`
// stays: the refusal's number, since the function is public and its clause promises `refusal_line` for every number
pub fn refusal(text: &mut Cursor<'_>, number: u8, place: u32)
    ensures { Puts (refusal_line number place) text.old text.new }
{
    phrase(text, b"refused ", number as u32, b" at ", place, b"\n");
}
