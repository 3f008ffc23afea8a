// The face for C and Rust: nothing but calls. Each function answers by the definition that its crate's contract cites.
#![tactic(auto)]

ghost use Rattle.std.specs.Prelude.{◌≡◌, length};
ghost use Rattle.meaning.specs.Answer.{accepted};
ghost use Rattle.meaning.specs.Refusal.{refusing};
ghost use Rattle.book.specs.Rules.{check_book};
ghost use Rattle.image.specs.Answers.{told_asked};
ghost use Rattle.image.specs.Rules.{check_image};
ghost use Rattle.image.specs.Calls.{checked_first, fallback_in, level_in, mark_in, edge_in, next_in, run_answer, run_memory};
ghost use Rattle.compile.specs.Answer.{compile_answer, compile_memory};
ghost use Rattle.lists.specs.Short.{short_answer, short_memory};
ghost use Rattle.lists.specs.Part.{part_answer};
ghost use Rattle.lists.specs.Group.{group_of};
ghost use Rattle.gusemrak.specs.Face.{face};

use meaning::Refusal;

// As C has it: number 0 where a call is not refused; the numbers that an answer does not have are 0.
#[repr(C)]
#[derive(Clone, Copy, Debug, PartialEq, Eq)]
pub struct Answer {
    pub number: u32,
    pub place: u32,
    pub a: u64,
    pub b: u64,
    pub c: u64,
    pub d: u64,
}

fn fine(a: usize, b: usize, c: usize, d: usize) -> Answer
    ensures { result ≡ face (accepted a b c d) }
{
    Answer {
        number: 0,
        place: 0,
        a: a as u64,
        b: b as u64,
        c: c as u64,
        d: d as u64,
    }
}

impl From<Refusal> for Answer {
    ghost from_gives = { λ e r. r ≡ face (refusing e) };

    fn from(e: Refusal) -> Answer {
        Answer {
            number: e.reason as u32,
            place: e.place,
            a: 0,
            b: 0,
            c: 0,
            d: 0,
        }
    }
}

// Each call has its own `match`, as each answer has its own numbers in the order that C knows.

// a: states, b: edges.
#[unsafe(no_mangle)]
pub extern "C" fn gusemrak_check_book(book: &[u8]) -> Answer
    ensures { result ≡ face (check_book book.now) }
{
    match book::check_book(book) {
        Ok(counts) => fine(counts.states, counts.edges, 0, 0),
        Err(e) => e.into(),
    }
}

// a: length, b: places, c: edges.
#[unsafe(no_mangle)]
pub extern "C" fn gusemrak_compile(book: &[u8], out: &mut [u8]) -> Answer
    ensures answer { result ≡ face (compile_answer book.now (length out.old)) }
    ensures memory { out.new ≡ compile_memory book.now out.old }
{
    match compile::compile(book, out) {
        Ok(made) => fine(made.length, made.places, made.edges, 0),
        Err(e) => e.into(),
    }
}

// a: places, b: edges.
#[unsafe(no_mangle)]
pub extern "C" fn gusemrak_check_image(image: &[u8]) -> Answer
    ensures { result ≡ face (check_image image.now) }
{
    match image::check_image(image) {
        Ok(counts) => fine(counts.places as usize, counts.edges as usize, 0, 0),
        Err(e) => e.into(),
    }
}

// What was asked of an image.
fn asked(answer: Result<u32, Refusal>) -> Answer
    ensures { result ≡ face (told_asked answer) }
{
    match answer {
        Ok(number) => fine(number as usize, 0, 0, 0),
        Err(e) => e.into(),
    }
}

// a: the fallback of a place.
#[unsafe(no_mangle)]
pub extern "C" fn gusemrak_fallback(image: &[u8], place: u32) -> Answer
    ensures { result ≡ face (checked_first image.now (λ q. fallback_in image.now q place)) }
{
    asked(image::ask_fallback(image, place))
}

// a: the level of a place.
#[unsafe(no_mangle)]
pub extern "C" fn gusemrak_level(image: &[u8], place: u32) -> Answer
    ensures { result ≡ face (checked_first image.now (λ q. level_in image.now q place)) }
{
    asked(image::ask_level(image, place))
}

// a: the mark of a place, 0 for none.
#[unsafe(no_mangle)]
pub extern "C" fn gusemrak_mark(image: &[u8], place: u32) -> Answer
    ensures { result ≡ face (checked_first image.now (λ q. mark_in image.now q place)) }
{
    asked(image::ask_mark(image, place))
}

// a: 1 where there is an edge, b: its target.
#[unsafe(no_mangle)]
pub extern "C" fn gusemrak_edge(image: &[u8], place: u32, event: u8) -> Answer
    ensures { result ≡ face (checked_first image.now (λ q. edge_in image.now q place event)) }
{
    match image::ask_edge(image, place, event) {
        Ok(Some(target)) => fine(1, target as usize, 0, 0),
        Ok(None) => fine(0, 0, 0, 0),
        Err(e) => e.into(),
    }
}

// a: place, b: level, c: failure steps.
#[unsafe(no_mangle)]
pub extern "C" fn gusemrak_step(image: &[u8], place: u32, event: u8) -> Answer
    ensures { result ≡ face (checked_first image.now (λ q. next_in image.now q place event)) }
{
    match image::step(image, place, event) {
        Ok(walk) => fine(
            walk.place as usize,
            walk.level as usize,
            walk.steps as usize,
            0,
        ),
        Err(e) => e.into(),
    }
}

// a: events taken, b: place, c: records, d: failure steps.
#[unsafe(no_mangle)]
pub extern "C" fn gusemrak_run(
    image: &[u8],
    place: u32,
    base: u32,
    log: &[u8],
    out: &mut [u8],
) -> Answer
    ensures answer { result ≡ face (run_answer image.now place base log.now out.old) }
    ensures memory { out.new ≡ run_memory image.now place base log.now out.old }
{
    match image::run(image, place, base, log, out) {
        Ok(ran) => fine(ran.taken, ran.place as usize, ran.records, ran.steps),
        Err(e) => e.into(),
    }
}

// a: records kept.
#[unsafe(no_mangle)]
pub extern "C" fn gusemrak_short_list(list: &[u8], out: &mut [u8]) -> Answer
    ensures answer { result ≡ face (short_answer list.now (length out.old)) }
    ensures memory { out.new ≡ short_memory list.now out.old }
{
    match lists::short_list(list, out) {
        Ok(records) => fine(records, 0, 0, 0),
        Err(e) => e.into(),
    }
}

// a: offset in the log, b: length.
#[unsafe(no_mangle)]
pub extern "C" fn gusemrak_part(log: &[u8], base: u32, end: u32, length: u32) -> Answer
    ensures { result ≡ face (part_answer log.now base end length) }
{
    match lists::part_answer(log, base, end, length) {
        Ok(named) => fine(named.offset, named.length, 0, 0),
        Err(e) => e.into(),
    }
}

#[unsafe(no_mangle)]
pub extern "C" fn gusemrak_group(event: u8) -> u8
    ensures { result ≡ group_of event }
{
    lists::group(event)
}
