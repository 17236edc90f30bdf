// The window: its size, its lines, and the limit 4.
#![tactic(auto)]

ghost use Rattle.std.specs.Prelude.{◌≡◌};
ghost use Rattle.window.specs.Window.{window_bytes, line_of, line_start, lines_check};

use event::Refusal;

// The start address of a line: 64 times its number, and 0 beyond the largest window.
pub fn line_start(line: u16) -> u16
    ensures { result ≡ line_start line }
{
    if line < 64 { line * 64 } else { 0 }
}

// The window's size in bytes.
pub fn window_bytes(lines: u16) -> u32
    ensures { result ≡ window_bytes lines }
{
    (lines as u32) * 64
}

// The line that holds a byte.
pub fn line_of(byte: u16) -> u16
    ensures { result ≡ line_of byte }
{
    byte / 64
}

// The limit 4 on a line count.
pub fn check_lines(lines: u16) -> Result<(), Refusal>
    ensures { result ≡ lines_check lines }
{
    if lines == 0 || 64 < lines {
        Err(Refusal::BadLines)
    } else {
        Ok(())
    }
}
