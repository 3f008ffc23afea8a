// Lists of records: the short list, the part of a log that a record names, and the letter of an event's group.
// `listing` has the text that the program prints.
#![tactic(auto)]

ghost use Rattle.std.specs.Prelude.{◌≡◌, ◌<◌, length};
ghost use Rattle.std.proofs.lemmas.List.Edits.{sets};
ghost use Rattle.lists.specs.Whole.{joined};
ghost use Rattle.lists.specs.Short.{short, is_kept, short_told, short_answer, short_memory};
ghost use Rattle.lists.specs.Read.{Reads};
ghost use Rattle.lists.specs.Part.{part_told, part_answer, part_of};
ghost use Rattle.lists.specs.Group.{group_of};

use meaning::{Reason, Refusal};
use text::Text;

pub mod listing;
pub mod text;

const RECORD: usize = 8;

// The part that an end and a length name, by its offset in the log and its length there.
#[derive(Clone, Copy, Debug, PartialEq, Eq)]
pub struct Named {
    pub offset: usize,
    pub length: usize,
}

// What eight bytes of a list say.
#[derive(Clone, Copy)]
struct Record {
    end: u32,
    length: u16,
    mark: u8,
}

impl From<[u8; RECORD]> for Record {
    ghost from_gives = { λ bytes r. Reads bytes r };

    fn from(bytes: [u8; RECORD]) -> Record {
        let [e0, e1, e2, e3, l0, l1, mark, _] = bytes;
        Record {
            end: u32::from_le_bytes([e0, e1, e2, e3]),
            length: u16::from_le_bytes([l0, l1]),
            mark,
        }
    }
}

// A record is kept if it is the first, or if its end differs from the end just before it.
fn is_kept(records: &[[u8; RECORD]], i: usize) -> bool
    requires { i < length records.now }
    ensures { result ≡ is_kept records.now i }
{
    i == 0 || Record::from(records[i]).end != Record::from(records[i - 1]).end
}

fn count_kept(records: &[[u8; RECORD]]) -> usize
    ensures { result ≡ length (short records.now) }
{
    (0..records.len()).filter(|i| is_kept(records, *i)).count()
}

// The records that are kept, from the start of `out` on.
fn write_kept(records: &[[u8; RECORD]], out: &mut [u8])
    ensures { out.new ≡ sets out.old 0 (joined (short records.now)) }
{
    let mut text = Text { out, at: 0 };
    for (i, record) in records.iter().enumerate() {
        if is_kept(records, i) {
            text.put_bytes(record);
        }
    }
}

// The short list; the answer is how many records it keeps.
pub fn short_list(list: &[u8], out: &mut [u8]) -> Result<usize, Refusal>
    ensures answer { short_told result ≡ short_answer list.now (length out.old) }
    ensures memory { out.new ≡ short_memory list.now out.old }
{
    let (records, rest) = list.as_chunks::<RECORD>();
    if !rest.is_empty() {
        return Err(Reason::ListLength.into());
    }
    let kept = count_kept(records);
    if out.len() < RECORD * kept {
        return Err(Reason::ListRoom.into());
    }
    write_kept(records, out);
    Ok(kept)
}

// Where the part that an end and a length name stands in the log.
#[tactic(auto, unfolding(crate::specs::Part::part_answer))]
pub fn part_answer(log: &[u8], base: u32, end: u32, length: u32) -> Result<Named, Refusal>
    ensures { part_told result ≡ part_answer log.now base end length }
{
    let base = base as usize;
    let end = end as usize;
    let length = length as usize;
    if u32::MAX as usize - base < log.len() {
        return Err(Reason::Base.into());
    }
    if length == 0 || end < base + length || base + log.len() < end {
        return Err(Reason::Part.into());
    }
    Ok(Named {
        offset: end - base - length,
        length,
    })
}

// The part of the log itself; empty exactly on refusal.
pub fn part(log: &[u8], base: u32, end: u32, length: u32) -> &[u8]
    ensures { result.now ≡ part_of log.now base end length }
{
    match part_answer(log, base, end, length) {
        Ok(Named { offset, length }) => &log[offset..offset + length],
        Err(_) => &log[..0],
    }
}

#[tactic(auto, unfolding(crate::specs::Group::group_of))]
pub fn group(event: u8) -> u8
    ensures { result ≡ group_of event }
{
    match event {
        0x00..=0x0F => b'S',
        0x10..=0x1F => b'M',
        0x20..=0x2F => b'C',
        0x30..=0x3F => b'D',
        0x40..=0x4F => b'W',
        0x50..=0xFF => b'R',
    }
}
