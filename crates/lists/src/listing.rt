// The lines that the program prints, each written into a text.
ghost use Rattle.std.specs.Prelude.{◌≡◌};
ghost use Rattle.lists.specs.Whole.{decoded};
ghost use Rattle.lists.specs.Group.{group_of};
ghost use Rattle.lists.specs.Listing.{header_text, field, line_text, event_number, lines_text};
ghost use Rattle.lists.specs.Listing.{pair_text, last_text, refused_text};
ghost use Rattle.lists.specs.Writes.{Writes};

use crate::text::Text;
use crate::{RECORD, Record, group};

// The group letter of the log's event number `end`, counting from 1.
fn last_letter(log: &[u8], end: usize) -> u8
    ensures { result ≡ group_of (event_number log.now end) }
{
    if end == 0 {
        return group(0);
    }
    group(log.get(end - 1).copied().unwrap_or(0))
}

impl Text<'_> {
    pub fn put_header(&mut self)
        ensures { Writes self.old header_text self.new }
    {
        self.put_bytes(b"end length mark last\n");
    }

    fn put_field(&mut self, number: usize)
        ensures { Writes self.old (field number) self.new }
    {
        self.put_decimal(number);
        self.put_byte(b' ');
    }

    // The line of a record. It takes four numbers and not a `Record`, as it promises the line of any numbers.
    pub fn put_line(&mut self, end: usize, length: usize, mark: usize, letter: u8)
        ensures { Writes self.old (line_text end length mark letter) self.new }
    {
        self.put_field(end);
        self.put_field(length);
        self.put_field(mark);
        self.put_byte(letter);
        self.put_byte(b'\n');
    }

    // The lines of all whole records of a run's buffer. The log is the whole log: a run in parts carries its base on.
    pub fn put_lines(&mut self, records: &[u8], log: &[u8])
        ensures { Writes self.old (lines_text (decoded records.now) log.now) self.new }
    {
        let (whole, _) = records.as_chunks::<RECORD>();
        for record in whole {
            let Record { end, length, mark } = Record::from(*record);
            let end = end as usize;
            self.put_line(end, length.into(), mark.into(), last_letter(log, end));
        }
    }

    // A line of two numbers.
    fn put_pair(&mut self, first: &[u8], n: usize, second: &[u8], m: usize)
        ensures { Writes self.old (pair_text first.now n second.now m) self.new }
    {
        self.put_bytes(first);
        self.put_decimal(n);
        self.put_bytes(second);
        self.put_decimal(m);
        self.put_byte(b'\n');
    }

    // The last line: the image's place count and the run's steps.
    pub fn put_last(&mut self, places: usize, steps: usize)
        ensures { Writes self.old (last_text places steps) self.new }
    {
        self.put_pair(b"places ", places, b" fails ", steps);
    }

    // The line of a refusal, by the numbers that document 01 prints.
    pub fn put_refused(&mut self, number: usize, place: usize)
        ensures { Writes self.old (refused_text number place) self.new }
    {
        self.put_pair(b"refused ", number, b" at ", place);
    }
}
