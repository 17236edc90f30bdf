// The calls that set a writer's area and its preamble. Nothing is printed for them.
//
// stays: `room` and `free` beside their spaces, since the clauses `value` of `area` and `preamble` hold for every number, also one that is
// longer than the space: a struct with an invariant would take fewer.
ghost use Rattle.std.specs.Prelude.{◌≡◌, min, length};
ghost use Rattle.codec.specs.Codec.{u32_at};
ghost use Rattle.writer_calls.specs.Writing.{pattern, room_after, space_after, free_after, preamble_after};

// Every byte of a slice: number i from 0 is from + step × i, in 8 bits.
pub fn fill(s: &mut [u8], from: u8, step: u8)
    ensures { s.new ≡ pattern from step (length s.old) }
{
    let mut x = from;
    for b in s {
        *b = x;
        x = x.wrapping_add(step);
    }
}

// The size at a place of a call, and at most the length of a slice.
pub fn size_at(bytes: &[u8], at: u8, s: &[u8]) -> usize
    ensures { result ≡ min (u32_at bytes.now at) (length s.now) }
{
    (codec::u32_at(bytes, at) as usize).min(s.len())
}

// A fresh area (32), and its length; any other call leaves it as it was.
pub fn area(space: &mut [u8], room: usize, bytes: &[u8]) -> usize
    ensures value { result ≡ room_after space.old room bytes.now }
    ensures space_after { space.new ≡ space_after space.old bytes.now }
{
    if codec::byte_at(bytes, 0) != 32 {
        return room;
    }
    let size = size_at(bytes, 2, space);
    fill(&mut space[..size], 165, 0);
    size
}

// A preamble of a pattern (33) or of the area's first bytes (34), and its length; any other call leaves it as it was.
pub fn preamble(space: &mut [u8], free: usize, area: &[u8], bytes: &[u8]) -> usize
    ensures value { result ≡ free_after space.old area.now free bytes.now }
    ensures space_after { space.new ≡ preamble_after space.old area.now bytes.now }
{
    match codec::byte_at(bytes, 0) {
        33 => {
            let size = size_at(bytes, 2, space);
            fill(&mut space[..size], codec::byte_at(bytes, 6), 7);
            size
        }
        34 => {
            let size = size_at(bytes, 2, area);
            codec::put(space, 0, &area[..size]);
            size
        }
        _ => free,
    }
}
