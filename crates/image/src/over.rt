// A run over an accepted image.
ghost use Rattle.std.specs.Prelude.{◌≡◌, true, false, ℕ, ◌+◌, ◌*◌, ◌≤◌, ◌<◌, length, get_or, leb, replicate};
ghost use Rattle.std.proofs.lemmas.List.Edits.{sets};
ghost use Rattle.meaning.specs.Answer.{accepted};
ghost use Rattle.meaning.specs.Records.{records_at};
ghost use Rattle.image.specs.Answers.{ran_told};
ghost use Rattle.image.specs.Calls.{run_told, list_bytes};
ghost use Rattle.image.specs.Held.{IsRoot, Idle, IsPacked, ran_over, reports};
ghost use Rattle.image.specs.Sought.{questions_of};

use crate::accepted_image::AcceptedImage;
use crate::steps::{Classes, Steps};
use crate::{Going, Moved, Ran, field};

// ---- the tables

// Where each event leads from place 0, from the last edge to the first. `Classes::own_edges` fills a row so too: by
// classes and not by events, of numbers of another width.
fn fill_root(image: AcceptedImage, root: &mut [u16; 256])
    requires { root.old ≡ replicate 256 0 }
    ensures { IsRoot (questions_of image.entry) root.new }
{
    let edges = image.edges(0);
    for j in (edges.first..edges.first + edges.count).rev() {
        root[image.event(j)] = image.target(j) as u16;
    }
}

// For each place in one number: the next place that reports, the level and the mark, these where a record has them, so
// that it is written by one store.
fn fill_packed(image: AcceptedImage, packed: &mut [usize; 1024])
    ensures { IsPacked image.entry.bytes.now image.entry.places packed.new }
{
    for p in 0..image.places {
        let link = image.link(image.fallback(p));
        let level = image.level(p);
        let mark = image.mark(p);
        packed[p] = link + 4294967296 * level + 281474976710656 * mark;
    }
}

// ---- the run

// A number that no edge has.
const NONE: usize = 4294967295;

// What stays the same while a run goes. What takes events is passed it by value, as behind a reference the compiler reads
// the image's counts anew at every event (94.7 instructions an event of a wide image, and 87.8 by value). The parts of a
// walk are passed it by reference, which spares each run the copies, some 20 instructions.
#[derive(Clone, Copy)]
struct Runner<'a> {
    image: AcceptedImage<'a>,
    root: &'a [u16; 256],
    packed: &'a [usize; 1024],
    room: usize,
    base: usize,
    log: &'a [u8],
    ghost rooted: { IsRoot (questions_of image) root.now },
    ghost linked: { IsPacked image.bytes.now image.places packed.now },
    ghost short: { base + length log.now < 4294967296 },
}

impl<'a> Runner<'a> {
    ghost use Rattle.image.specs.Running.{ReadyIn, CarriedIn, CarriedInTo, LeadsIn};

    // ---- one event

    // By a search of the edges of its place, and of the places on the fallbacks.
    fn step(self, place: usize, event: usize) -> Moved
        requires { (place < self.image.places) × (event < 256) }
        ensures { LeadsIn self.entry place event result }
    {
        let image = self.image;
        let mut p = place;
        let mut steps = 0;
        // a `while`, as it goes from fallback to fallback and not by an index
        while p != 0 {
            // asked by its number: of an Option each end of the search goes on by itself, which takes a twentieth more
            let j = image.find(p, event).unwrap_or(NONE);
            if j != NONE {
                return Moved {
                    place: image.target(j),
                    steps,
                };
            }
            p = image.fallback(p);
            steps += 1;
        }
        Moved {
            place: usize::from(self.root[event]),
            steps,
        }
    }

    // Does the walk stay at place 0?
    fn idle(self, place: usize, event: usize) -> bool
        requires { event < 256 }
        ensures { result ≡ true → Idle self.entry.root.now place event }
    {
        place == 0 && self.root[event] == 0
    }

    // ---- its records

    // Two loops follow the links, each had from the one before: by `iter::successors` the look into the table and the
    // test for the last would be a closure in both, and neither would be shorter.

    fn count(self, place: usize) -> usize
        requires { place < self.image.places }
        ensures { result ≡ reports (questions_of self.entry.image) place }
    {
        let mut link = self.image.link(place);
        let mut n = 0;
        while link != 0 {
            let entry = self.packed[link];
            n += 1;
            link = entry % 65536;
        }
        n
    }

    // Do they fit into the room left? A place has fewer than there are places.
    fn fits(self, place: usize, left: usize) -> bool
        requires { place < self.image.places }
        ensures { result ≡ leb (reports (questions_of self.entry.image) place) left }
    {
        self.image.places <= left || self.count(place) <= left
    }

    // Written from the k-th on.
    fn report(self, place: usize, end: usize, out: &mut [u8], k: usize) -> usize
        requires { (place < self.image.places) × (end < 4294967296)
            × (8 * (k + reports (questions_of self.image) place) ≤ length out.old) }
        ensures { (result ≡ k + reports (questions_of self.entry.image) place)
            × (out.new ≡ sets out.old (8 * k) (list_bytes (records_at (questions_of self.entry.image) end place))) }
    {
        let mut link = self.image.link(place);
        let mut k = k;
        while link != 0 {
            let entry = self.packed[link];
            let next = entry % 65536;
            field::put_record(out, 8 * k, entry - next + end);
            k += 1;
            link = next;
        }
        k
    }

    // ---- the log

    // One event, whose move is known: its records are written, where they fit.
    fn turn(self, moved: Moved, out: &mut [u8], g: &mut Going)
        requires { ReadyIn self out.old g.old × (g.old.full ≡ false) × (g.old.taken < length self.log.now)
            × LeadsIn self g.old.place (get_or self.log.now g.old.taken 0) moved }
        ensures { CarriedIn self.entry out.old g.old out.new g.new
            × (g.new.full ≡ false → g.new.taken ≡ g.old.taken + 1) }
    {
        if self.fits(moved.place, self.room - g.records) {
            g.records = self.report(moved.place, self.base + g.taken + 1, out, g.records);
            g.taken += 1;
            g.place = moved.place;
            g.steps += moved.steps;
        } else {
            g.full = true;
        }
    }

    // The events up to a number of them, each by a function that finds its move. `inline(always)`, so that the compiler
    // works on the loop once, with the function already in it. Else it does so before as well, keeps the place in `root`
    // of an event for both looks, and an event that stays at place 0 takes 8.7 instructions in place of 7.7.
    #[inline(always)]
    fn carry<F: Fn(usize, usize) -> Moved>(
        self,
        moved: F,
        until: usize,
        out: &mut [u8],
        from: Going,
    ) -> Going
        requires ready { ReadyIn self out.old from }
        requires there { until ≤ length self.log.now }
        requires callable { (p a : ℕ) → p < self.image.places → a < 256 → F.pre moved p a }
        requires moves { (p a : ℕ) (r : Moved) → p < self.image.places → a < 256 → F.post moved p a r → LeadsIn self p a r }
        ensures { CarriedInTo self.entry until out.old from out.new result }
    {
        if from.full {
            return from;
        }
        // field by field: with the struct its padding is copied too, in parts that the next part of the walk reads back
        // as others, and waits for
        let mut g = Going {
            taken: from.taken,
            place: from.place,
            records: from.records,
            steps: from.steps,
            full: false,
        };
        // a `while` on the events taken, which `turn` counts where there is room for the records: a `for` over the log
        // would count them a second time
        while !g.full && g.taken < until {
            let event = usize::from(self.log[g.taken]);
            if self.idle(g.place, event) {
                g.taken += 1;
                continue;
            }
            self.turn(moved(g.place, event), out, &mut g);
        }
        g
    }

    fn by_search(&self, until: usize, out: &mut [u8], from: Going) -> Going
        requires { ReadyIn self.now out.old from × (until ≤ length self.now.log.now) }
        ensures { CarriedInTo self.now until out.old from out.new result }
    {
        let runner = *self;
        runner.carry(|p, a| runner.step(p, a), until, out, from)
    }

    // To the end of the log by a table of every step, where the image's steps fit into it. It takes 128 KiB of the
    // stack.
    fn tabled(&self, out: &mut [u8], from: Going) -> Going
        requires { ReadyIn self.now out.old from }
        ensures { CarriedInTo self.now (length self.now.log.now) out.old from out.new result }
    {
        let end = self.log.len();
        let classes = Classes::new(self.image);
        if classes.count * self.image.places <= 32768 {
            let mut rows = [0; 32768];
            classes.fill(&mut rows);
            let steps = Steps {
                classes: &classes,
                rows: &rows,
            };
            self.carry(|p, a| steps.look(p, a), end, out, from)
        } else {
            self.by_search(end, out, from)
        }
    }

    // To the end of the log. Whether the table pays is asked early, and again after a quarter. As `tabled` is called at
    // two places, the compiler leaves it apart, and a run that goes without it does not take its stack.
    fn walk(&self, out: &mut [u8], from: Going) -> Going
        requires { ReadyIn self.now out.old from }
        ensures { CarriedInTo self.now (length self.now.log.now) out.old from out.new result }
    {
        let end = self.log.len();
        let g = self.by_search(end.min(2048), out, from);
        if pays(g, end) {
            return self.tabled(out, g);
        }
        let h = self.by_search(end - end / 4 * 3, out, g);
        if pays(h, end) {
            return self.tabled(out, h);
        }
        self.by_search(end, out, h)
    }
}

// Does the table pay for the rest of the log? It spares the failure steps, and costs what some 2,048 of them do: are
// there to be more, if what is left goes on as it began?
fn pays(g: Going, end: usize) -> bool
    requires { g.taken < 4294967296 }
{
    !g.full && g.taken < end && 2048 * g.taken / (end - g.taken) < g.steps
}

// Field by field, as the place changes its width: `From` would be the same lines.
fn done(g: Going) -> Ran
    requires { g.place < 4294967296 }
    ensures { ran_told result ≡ accepted g.taken g.place g.records g.steps }
{
    Ran {
        taken: g.taken,
        place: g.place as u32,
        records: g.records,
        steps: g.steps,
    }
}

pub(crate) fn run(
    image: AcceptedImage,
    place: usize,
    base: usize,
    log: &[u8],
    out: &mut [u8],
) -> Ran
    requires { (place < image.places) × (base + length log.now < 4294967296) }
    ensures { (ran_told result
        ≡ run_told (ran_over image.entry.bytes.now image.entry.places base place log.now out.old))
        × (out.new
        ≡ sets out.old 0
        (list_bytes (ran_over image.entry.bytes.now image.entry.places base place log.now out.old).records)) }
{
    // arrays, as the library has no heap, filled where they stand: given back by value they are copied, and a run of
    // one event takes a tenth longer
    let mut root = [0; 256];
    fill_root(image, &mut root);
    let mut packed = [0; 1024];
    fill_packed(image, &mut packed);
    let runner = Runner {
        image,
        root: &root,
        packed: &packed,
        room: out.len() / 8,
        base,
        log,
    };
    let start = Going {
        taken: 0,
        place,
        records: 0,
        steps: 0,
        full: false,
    };
    done(runner.walk(out, start))
}
