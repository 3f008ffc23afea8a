// The numbers of an image's records. Where they lie in a record of form 1 stands here alone.
ghost use Rattle.std.specs.Prelude.{◌≡◌, List, ℕ, ◌+◌, ◌*◌, ◌/◌, ◌%◌, ◌≤◌, ◌<◌, length, get_or, min};
ghost use Rattle.std.proofs.Common.{arith};
ghost use Rattle.std.proofs.lemmas.List.Edits.{sets};
ghost use Rattle.wire.specs.Little.{NumberIs, le16_at};
ghost use Rattle.wire.specs.Record.{record_bytes};
ghost use Rattle.image.specs.Form.{form1, place_at, edge_at, trailer_of, has_letters};

use crate::SM;

// Bytes that numbers are read from.
pub(crate) trait Bytes: Copy {
    ghost list: { Self → List ℕ };

    // how many of them can be read
    ghost end: { Self → ℕ };

    fn byte(self, at: usize) -> usize
        requires { at < end self }
        ensures { NumberIs (get_or (list self) at 0) 256 result };

    fn pair(self, at: usize) -> usize
        requires { at + 1 < end self }
        ensures { NumberIs (le16_at (list self) at) 65536 result };

    ghost fits: { (s : Self) → end s < 18446744073709551616 };
}

// Those of a slice are read without a test: they are to be there.
impl<'a> Bytes for &'a [u8] {
    ghost list = { λ s. s.now };

    ghost end = { λ s. min (length s.now) 18446744073709551615 };

    fn byte(self, at: usize) -> usize {
        usize::from(self[at])
    }

    fn pair(self, at: usize) -> usize {
        wire::pair(self[at], self[at + 1])
    }

    ghost fits = { λ s. Prim.omega arith };
}

// A slice as any bytes: past its end all are 0.
#[derive(Clone, Copy)]
pub(crate) struct Padded<'a> {
    pub(crate) bytes: &'a [u8],
}

impl<'a> Bytes for Padded<'a> {
    ghost list = { λ s. s.bytes.now };

    ghost end = { λ s. 18446744073709551615 };

    fn byte(self, at: usize) -> usize {
        wire::byte_at(self.bytes, at)
    }

    fn pair(self, at: usize) -> usize {
        wire::le16(self.bytes, at)
    }

    ghost fits = { λ s. Prim.omega arith };
}

// ---- a place record

// A function for each number, as each is asked for by its word: by an offset as a parameter a caller would name 6 where
// it says `level`.

pub(crate) fn first<B: Bytes>(bytes: B, p: usize) -> usize
    requires { 14 * p + 14 ≤ B.end bytes }
    ensures { NumberIs (place_at form1 (B.list bytes) p).first 65536 result }
{
    bytes.pair(14 * p)
}

pub(crate) fn count<B: Bytes>(bytes: B, p: usize) -> usize
    requires { 14 * p + 14 ≤ B.end bytes }
    ensures { NumberIs (place_at form1 (B.list bytes) p).count 65536 result }
{
    bytes.pair(14 * p + 2)
}

pub(crate) fn fallback<B: Bytes>(bytes: B, p: usize) -> usize
    requires { 14 * p + 14 ≤ B.end bytes }
    ensures { NumberIs (place_at form1 (B.list bytes) p).fallback 65536 result }
{
    bytes.pair(14 * p + 4)
}

pub(crate) fn level<B: Bytes>(bytes: B, p: usize) -> usize
    requires { 14 * p + 14 ≤ B.end bytes }
    ensures { NumberIs (place_at form1 (B.list bytes) p).level 65536 result }
{
    bytes.pair(14 * p + 6)
}

pub(crate) fn head<B: Bytes>(bytes: B, p: usize) -> usize
    requires { 14 * p + 14 ≤ B.end bytes }
    ensures { NumberIs (place_at form1 (B.list bytes) p).head 65536 result }
{
    bytes.pair(14 * p + 8)
}

pub(crate) fn link<B: Bytes>(bytes: B, p: usize) -> usize
    requires { 14 * p + 14 ≤ B.end bytes }
    ensures { NumberIs (place_at form1 (B.list bytes) p).link 65536 result }
{
    bytes.pair(14 * p + 10)
}

pub(crate) fn mark<B: Bytes>(bytes: B, p: usize) -> usize
    requires { 14 * p + 14 ≤ B.end bytes }
    ensures { NumberIs (place_at form1 (B.list bytes) p).mark 256 result }
{
    bytes.byte(14 * p + 12)
}

pub(crate) fn spare<B: Bytes>(bytes: B, p: usize) -> usize
    requires { 14 * p + 14 ≤ B.end bytes }
    ensures { NumberIs (place_at form1 (B.list bytes) p).spare 256 result }
{
    bytes.byte(14 * p + 13)
}

// ---- an edge record, where there are q places

pub(crate) fn edge_event<B: Bytes>(bytes: B, q: usize, j: usize) -> usize
    requires { 14 * q + 4 * j + 4 ≤ B.end bytes }
    ensures { NumberIs (edge_at form1 (B.list bytes) q j).event 256 result }
{
    bytes.byte(14 * q + 4 * j)
}

pub(crate) fn edge_spare<B: Bytes>(bytes: B, q: usize, j: usize) -> usize
    requires { 14 * q + 4 * j + 4 ≤ B.end bytes }
    ensures { NumberIs (edge_at form1 (B.list bytes) q j).spare 256 result }
{
    bytes.byte(14 * q + 4 * j + 1)
}

pub(crate) fn edge_target<B: Bytes>(bytes: B, q: usize, j: usize) -> usize
    requires { 14 * q + 4 * j + 4 ≤ B.end bytes }
    ensures { NumberIs (edge_at form1 (B.list bytes) q j).target 65536 result }
{
    bytes.pair(14 * q + 4 * j + 2)
}

// ---- the trailer, whose numbers are other ones than those of a book's

pub(crate) fn distance(image: &[u8]) -> usize
    requires { form1.trailer_size ≤ length image.now }
    ensures { NumberIs (trailer_of form1 image.now).distance 4294967296 result }
{
    wire::le32(image, image.len() - 12)
}

pub(crate) fn places(image: &[u8]) -> usize
    requires { form1.trailer_size ≤ length image.now }
    ensures { NumberIs (trailer_of form1 image.now).places 65536 result }
{
    wire::le16(image, image.len() - 12 + 4)
}

pub(crate) fn edges(image: &[u8]) -> usize
    requires { form1.trailer_size ≤ length image.now }
    ensures { NumberIs (trailer_of form1 image.now).edges 65536 result }
{
    wire::le16(image, image.len() - 12 + 6)
}

pub(crate) fn form(image: &[u8]) -> usize
    requires { form1.trailer_size ≤ length image.now }
    ensures { NumberIs (trailer_of form1 image.now).form 65536 result }
{
    wire::le16(image, image.len() - 12 + 8)
}

pub(crate) fn has_letters(image: &[u8]) -> bool
    requires { 2 ≤ length image.now }
    ensures { result ≡ has_letters image.now }
{
    image.ends_with(&SM)
}

// ---- the offset of a record, as a refusal names it

pub(crate) fn place_offset(p: usize) -> u32
    requires { p ≤ 65536 }
    ensures { result ≡ form1.place_size * p }
{
    (14 * p) as u32
}

pub(crate) fn edge_offset(q: usize, j: usize) -> u32
    requires { (q ≤ 65536) × (j ≤ 65536) }
    ensures { result ≡ form1.place_size * q + form1.edge_size * j }
{
    (14 * q + 4 * j) as u32
}

// ---- a record of a run

// As one number, little-endian: the end, the length, the mark. Byte by byte, which the compiler makes one store: with
// `copy_from_slice` of the number's `to_le_bytes` a log that writes many records takes 804 instructions an event, and
// 474 so; a run may take 10 % more than recorded.
pub(crate) fn put_record(out: &mut [u8], at: usize, number: usize)
    requires { (at + 8 ≤ length out.old) × (number < 72057594037927936) }
    ensures { out.new
        ≡ sets out.old at
        (record_bytes (number % 4294967296) (number / 4294967296 % 65536) (number / 281474976710656)) }
{
    out[at] = (number % 256) as u8;
    out[at + 1] = (number / 256 % 256) as u8;
    out[at + 2] = (number / 65536 % 256) as u8;
    out[at + 3] = (number / 16777216 % 256) as u8;
    out[at + 4] = (number / 4294967296 % 256) as u8;
    out[at + 5] = (number / 1099511627776 % 256) as u8;
    out[at + 6] = (number / 281474976710656 % 256) as u8;
    out[at + 7] = (number / 72057594037927936) as u8;
}
