// The calls that change the findings area, which is the first bytes of a space. Nothing is printed for them.
ghost use Rattle.std.specs.Prelude.{◌≡◌, ◌+◌, ◌-◌, ◌*◌, ◌/◌, ◌%◌, ◌≤◌, min, length, take};
ghost use Rattle.codec.specs.Codec.{u16_at};
ghost use Rattle.page_runs.specs.Setting.{finding_plus, findings_put, zeroed, byte_set, used_after, space_after};

use writer_calls::setting::{fill, size_at};

// The u16 at a place of a call, with a number added in 16 bits.
fn added(bytes: &[u8], at: usize, more: u16) -> u16
    ensures { result ≡ (u16_at bytes.now at + more) % 65536 }
{
    codec::u16_at(bytes, at).wrapping_add(more)
}

// The finding in a call, with a number added to each of its five fields.
fn finding(bytes: &[u8], more: u16) -> [u8; 12]
    ensures { result ≡ finding_plus bytes.now more }
{
    let mut one = [0u8; 12];
    one[0] = codec::byte_at(bytes, 12);
    one[1] = codec::byte_at(bytes, 13);
    one[2..4].copy_from_slice(&added(bytes, 14, more).to_le_bytes());
    one[4..6].copy_from_slice(&added(bytes, 16, more).to_le_bytes());
    one[6..8].copy_from_slice(&added(bytes, 18, more).to_le_bytes());
    one[8..10].copy_from_slice(&added(bytes, 20, more).to_le_bytes());
    one[10..].copy_from_slice(&added(bytes, 22, more).to_le_bytes());
    one
}

// How many of so many findings there is room for from a place on.
fn fitting(space: &[u8], at: usize, count: u32) -> usize
    ensures { result ≡ min count ((length space.now - at) / 12) }
{
    if space.len() < at {
        return 0;
    }
    let room = (space.len() - at) / 12;
    (count as usize).min(room)
}

// Puts so many findings from a place on.
// stays: a space and a place in it, here, in `zero` and in `set_byte`: as methods they would close `Findings` with its invariant at each call,
// and their clauses, which are of the space alone, would be no plainer
fn put_findings(space: &mut [u8], at: usize, bytes: &[u8], count: usize)
    requires { 12 * count ≤ length space.old - at }
    ensures { space.new ≡ findings_put space.old at bytes.now count }
{
    let step = codec::u16_at(bytes, 2);
    let mut more: u16 = 0;
    for i in 0..count {
        let one = finding(bytes, more);
        codec::put(space, at + 12 * i, &one);
        more = more.wrapping_add(step);
    }
}

// Makes every byte from a place on 0, where the area gets longer.
fn zero(space: &mut [u8], used: usize, size: usize)
    requires { size ≤ length space.old }
    ensures { space.new ≡ zeroed used size space.old }
{
    if used < size {
        fill(&mut space[used..], 0, 0);
    }
}

// Sets the byte at a place of the area.
fn set_byte(space: &mut [u8], used: usize, at: usize, b: u8)
    ensures { space.new ≡ byte_set used at b space.old }
{
    if at < used {
        codec::put(space, at, &[b]);
    }
}

// The findings area: the first bytes of a space.
#[derive(Drop)]
pub struct Findings<const N: usize> {
    pub space: [u8; N],
    pub used: usize,
    ghost within: { used ≤ N },
}

impl<const N: usize> Findings<N> {
    // The area's bytes.
    pub fn as_slice(&self) -> &[u8]
        ensures { result.now ≡ take self.now.used self.now.space }
    {
        &self.space[..self.used]
    }

    // The call: 1 puts findings behind the area, 2 makes it shorter or longer, 3 sets a byte. Any other changes nothing.
    pub fn call(&mut self, bytes: &[u8])
        ensures used_after { self.new.used ≡ used_after self.old.space self.old.used bytes.now }
        ensures space_after { self.new.space ≡ space_after self.old.space self.old.used bytes.now }
    {
        let number = codec::u32_at(bytes, 4);
        match codec::byte_at(bytes, 0) {
            1 => {
                let count = fitting(&self.space, self.used, number);
                put_findings(&mut self.space, self.used, bytes, count);
                self.used += 12 * count;
            }
            2 => {
                let size = size_at(bytes, 4, &self.space);
                zero(&mut self.space, self.used, size);
                self.used = size;
            }
            3 => set_byte(
                &mut self.space,
                self.used,
                number as usize,
                codec::byte_at(bytes, 1),
            ),
            _ => {}
        }
    }
}
