// The listing of a log by a signature book: reads `book.sb` and `log.ev` and prints the full list, or what is refused.
#![tactic(auto)]

ghost use Rattle.std.specs.Prelude.{◌≤◌, ◌<◌, ◌≡◌, length, take};
ghost use Rattle.image.specs.Calls.{places_in};
ghost use Rattle.image.specs.Rules.{check_image};
ghost use Rattle.list.specs.Part.{Parted, steps_over};

use lists::text::Text;
use meaning::{Reason, Refusal};
use std::fs::File;
use std::io::{self, Read, Write};

// One byte more than a book may have, and than the program takes of a log: so a file that is too long is seen.
const BOOK: usize = 65537;

const LOG: usize = 32769;

// The largest image.
const IMAGE: usize = 30732;

// The records of a part. Room for 1,023 always moves a run on, so that the list is whole, however long.
const RECORDS: usize = 8184;

// Their lines, each of at most 23 bytes.
const TEXT: usize = 23529;

// Any other line has at most 64. A `Text` is made where it is written and asked how far it came: a method of `lists` for
// these two lines would be public.
const LINE: usize = 64;

// What one part of the run came to: events taken, place, failure steps, and the bytes of its lines.
#[derive(Clone, Copy, Debug, Default)]
struct Part {
    taken: usize,
    place: u32,
    steps: usize,
    length: usize,
}

// The run goes on at the log's event `at`, from a place that the part before it came to. The text is lent, and the part
// has the length of its lines, as `Parted` speaks of the two.
fn next_part(image: &[u8], place: u32, log: &[u8], at: usize, text: &mut [u8]) -> Part
    requires { (at ≤ length log.now) × (length log.now ≤ 32768) }
    ensures { Parted image.now place log.now at text.old text.new result }
{
    let mut records = [0u8; RECORDS];
    match image::run(image, place, at as u32, &log[at..], &mut records) {
        Ok(ran) => {
            let mut lines = Text { out: text, at: 0 };
            lines.put_lines(&records[..8 * ran.records], log);
            Part {
                taken: ran.taken,
                place: ran.place,
                steps: ran.steps,
                length: lines.at,
            }
        }
        Err(_) => Part::default(),
    }
}

// Standard output is written to and not asked: what it doesn't take is lost, and the listing goes on.
fn show(rt: &HostRuntime, bytes: &[u8]) {
    let _ = io::writer(rt).write_all(bytes);
}

// Prints the lines of the full list, part by part, and answers the run's failure steps. Every part takes an event. A
// `while`, as how far a part comes is known when it is run.
fn print_parts(rt: &HostRuntime, image: &[u8], log: &[u8]) -> usize
    requires { (length log.now ≤ 32768) × (0 < places_in (check_image image.now)) }
    ensures { result ≡ steps_over image.now log.now }
{
    let mut text = [0u8; TEXT];
    let mut at = 0;
    let mut place = 0u32;
    let mut steps = 0;
    while at < log.len() {
        let part = next_part(image, place, log, at, &mut text);
        let length = part.length;
        show(rt, &text[..length]);
        at += part.taken;
        place = part.place;
        steps += part.steps;
    }
    steps
}

// The whole listing.
fn print_listing(rt: &HostRuntime, image: &[u8], places: usize, log: &[u8])
    requires { (length log.now ≤ 32768) × (places ≡ places_in (check_image image.now)) × (0 < places) }
{
    let mut line = [0u8; LINE];
    let mut header = Text {
        out: &mut line,
        at: 0,
    };
    header.put_header();
    let length = header.at;
    show(rt, &line[..length]);
    let steps = print_parts(rt, image, log);
    let mut last = Text {
        out: &mut line,
        at: 0,
    };
    last.put_last(places, steps);
    let length = last.at;
    show(rt, &line[..length]);
}

// By `put_refused`, whose text is promised: what `write!` prints is promised of an `Ok` alone.
fn print_refused(rt: &HostRuntime, refusal: Refusal) {
    let mut line = [0u8; LINE];
    let mut text = Text {
        out: &mut line,
        at: 0,
    };
    text.put_refused(refusal.reason as usize, refusal.place as usize);
    let length = text.at;
    show(rt, &line[..length]);
}

// What is printed for a book and a log: the book's and the compile's refusals come before the log's.
fn print_all(rt: &HostRuntime, book: &[u8], log: &[u8]) -> Result<(), Refusal> {
    let mut image = [0u8; IMAGE];
    let made = compile::compile(book, &mut image)?;
    if LOG <= log.len() {
        return Err(Reason::Log.into());
    }
    print_listing(rt, &image[..made.length], made.places, log);
    Ok(())
}

// The file is read until it ends, can't be read on or the buffer is full. `fs::read` and `read_to_end` fill a `Vec`,
// and the program has no heap; `read_exact` doesn't say where a file ends that is shorter.
fn read_full(file: &mut File, bytes: &mut [u8]) -> usize
    ensures { (result ≤ length bytes.new) × (result ≡ length (take result bytes.new)) }
{
    let mut done = 0;
    while done < bytes.len() {
        match file.read(&mut bytes[done..]) {
            Ok(0) | Err(_) => break,
            Ok(n) => done += n,
        }
    }
    done
}

// A file that can't be opened reads as empty.
fn read_file<'a>(rt: &HostRuntime, path: &str, bytes: &'a mut [u8]) -> &'a [u8]
    ensures { length result.now ≤ length bytes.old }
{
    let Ok(mut file) = File::open(rt, path) else {
        return &[];
    };
    let length = read_full(&mut file, bytes);
    &bytes[..length]
}

fn main(rt: HostRuntime) {
    let mut book = [0u8; BOOK];
    let book = read_file(&rt, "book.sb", &mut book);
    let mut log = [0u8; LOG];
    let log = read_file(&rt, "log.ev", &mut log);
    if let Err(refusal) = print_all(&rt, book, log) {
        print_refused(&rt, refusal);
    }
}
