// Little-endian numbers in bytes: reading past the end gives 0, writing past the end changes nothing.
#![tactic(auto)]

ghost use Rattle.std.specs.Prelude.{◌≡◌, ◌+◌, ◌*◌, ◌<◌, length, set};
ghost use Rattle.wire.specs.Little.{ByteIs, NumberIs, le16_at, le32_at, put16_at, put32_at};

// The byte at a place, 0 past the end.
pub fn byte_at(s: &[u8], at: usize) -> usize
    ensures { ByteIs s.now at result }
{
    if at < s.len() { usize::from(s[at]) } else { 0 }
}

// The number that two bytes are. Where a caller knows that both are there, they are read without a test between them: in
// one go.
pub fn pair(low: u8, high: u8) -> usize
    ensures { NumberIs (low + 256 * high) 65536 result }
{
    usize::from(u16::from_le_bytes([low, high]))
}

// Two bytes that are both there. A function of its own, as in the branch of `le16` the compiler would read them one by one.
fn both(s: &[u8], at: usize) -> usize
    requires { at + 1 < length s.now }
    ensures { NumberIs (le16_at s.now at) 65536 result }
{
    pair(s[at], s[at + 1])
}

pub fn le16(s: &[u8], at: usize) -> usize
    ensures { NumberIs (le16_at s.now at) 65536 result }
{
    if at < s.len() {
        if at + 1 < s.len() {
            both(s, at)
        } else {
            byte_at(s, at)
        }
    } else {
        0
    }
}

pub fn le32(s: &[u8], at: usize) -> usize
    ensures { NumberIs (le32_at s.now at) 4294967296 result }
{
    if at < s.len() {
        le16(s, at) + 65536 * le16(s, at + 2)
    } else {
        0
    }
}

// The byte at a place is set; past the end nothing is.
pub fn put_byte(d: &mut [u8], at: usize, b: u8)
    ensures { d.new ≡ set d.old at b }
{
    if at < d.len() {
        d[at] = b;
    }
}

pub fn put16(d: &mut [u8], at: usize, v: usize)
    ensures { d.new ≡ put16_at d.old at v }
{
    if at < d.len() {
        let [low, high] = ((v % 65536) as u16).to_le_bytes();
        put_byte(d, at, low);
        put_byte(d, at + 1, high);
    }
}

pub fn put32(d: &mut [u8], at: usize, v: usize)
    ensures { d.new ≡ put32_at d.old at v }
{
    if at < d.len() {
        put16(d, at, v % 65536);
        put16(d, at + 2, v / 65536 % 65536);
    }
}
