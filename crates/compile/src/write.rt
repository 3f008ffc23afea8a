// The image is written: place records, edge records, trailer.
ghost use Rattle.std.specs.Prelude.{◌≡◌, ◌+◌, ◌*◌, ◌≤◌, ◌<◌, length, get_or};
ghost use Rattle.std.specs.Prelude.{Some};
ghost use Rattle.std.proofs.lemmas.List.Edits.{sets};
ghost use Rattle.wire.specs.Little.{le16_at, NumberIs};
ghost use Rattle.meaning.specs.Chain.{step};
ghost use Rattle.meaning.specs.Book.{delta, outs};
ghost use Rattle.image.specs.Form.{form1};
ghost use Rattle.compile.specs.Work.{chain_of};
ghost use Rattle.compile.specs.Explore.{whole, IsPlace};
ghost use Rattle.compile.specs.Held.{source_book, rows_of, chains_in};
ghost use Rattle.compile.specs.Bytes.{place_record, edge_record, trailer_of, spread, edges_of, image_bytes};
ghost use Rattle.compile.specs.Write.{Numbered, EdgesAre, LinkIs, Wrote, edge_end, Known, Starts, EdgeNumber, RestIs};

use crate::source::Source;
use crate::work::{Chain, Places};
use std::cmp::Ordering;

// A place record; its spare byte is zero.
#[derive(Clone, Copy, Debug, PartialEq, Eq)]
struct PlaceRecord {
    first: usize,
    count: usize,
    fallback: usize,
    level: usize,
    head: usize,
    link: usize,
    mark: u8,
}

impl PlaceRecord {
    fn write(&self, out: &mut [u8], at: usize)
        requires { at ≤ 20000 }
        ensures { out.new ≡ sets out.old at (form1.place_bytes (place_record self.now.first self.now.count
            self.now.fallback self.now.level self.now.head self.now.link self.now.mark)) }
    {
        wire::put16(out, at, self.first);
        wire::put16(out, at + 2, self.count);
        wire::put16(out, at + 4, self.fallback);
        wire::put16(out, at + 6, self.level);
        wire::put16(out, at + 8, self.head);
        wire::put16(out, at + 10, self.link);
        wire::put_byte(out, at + 12, self.mark);
        wire::put_byte(out, at + 13, 0);
    }
}

// An edge record; its spare byte is zero.
#[derive(Clone, Copy, Debug, PartialEq, Eq)]
struct EdgeRecord {
    event: u8,
    target: usize,
}

impl EdgeRecord {
    fn write(&self, out: &mut [u8], at: usize)
        requires { at ≤ 100000 }
        ensures { out.new ≡ sets out.old at (form1.edge_bytes (edge_record self.now.event self.now.target)) }
    {
        wire::put_byte(out, at, self.event);
        wire::put_byte(out, at + 1, 0);
        wire::put16(out, at + 2, self.target);
    }
}

// The trailer of an image of so many places and edges, whose records come before it. A book's has other numbers.
#[derive(Clone, Copy, Debug, PartialEq, Eq)]
struct Trailer {
    places: usize,
    edges: usize,
}

impl Trailer {
    fn write(&self, out: &mut [u8])
        requires { 14 * self.now.places + 4 * self.now.edges ≤ 90000 }
        ensures { out.new ≡ sets out.old (14 * self.now.places + 4 * self.now.edges)
            (form1.trailer_bytes (trailer_of form1 self.now.places self.now.edges)) }
    {
        let at = 14 * self.places + 4 * self.edges;
        wire::put32(out, at, at + 12);
        wire::put16(out, at + 4, self.places);
        wire::put16(out, at + 6, self.edges);
        wire::put16(out, at + 8, 1);
        let [first, second] = image::SM;
        wire::put_byte(out, at + 10, first);
        wire::put_byte(out, at + 11, second);
    }
}

// The number, among the edges of the state q, of the one with the event. The events rise: they are searched by halving.
// It stands beside crate book's search by halving: the number of an edge is wanted here, and where it leads there. One
// search for both would answer the number, and the first pass, which asks most, would read each record found twice.
// It is a loop, as the records lie in bytes: crate book reads them one by one, and has no slice of them to search.
fn edge_of(source: &Source, q: usize, event: usize) -> Option<usize>
    requires { q < 512 }
    ensures { EdgeNumber (source_book source.now) q event result }
{
    let from = source.first_edge(q);
    let mut low = 0;
    let mut left = source.count(q);
    while 0 < left {
        let half = left / 2;
        match source.event(from + low + half).cmp(&event) {
            Ordering::Equal => return Some(low + half),
            Ordering::Less => {
                low += half + 1;
                left -= half + 1;
            }
            Ordering::Greater => left = half,
        }
    }
    None
}

// A book with all its places, whose image is written. `start` is, once the edge records of place 0 are written, the
// place that each event leads to from it: 0 where the start has no edge.
#[derive(Drop)]
struct Writing<'a> {
    source: &'a Source<'a>,
    places: &'a Places,
    start: [u16; 256],
    ghost numbered: { Numbered (source_book source.now) (rows_of places.now) places.now.count },
}

impl<'a> Writing<'a> {
    ghost use Rattle.compile.specs.Writing.{book_of, rows_in, count_of, list_in, Walks, place_records, edge_records};

    // The link of the place p: itself if its head is marked, otherwise its fallback's link.
    fn link(&self, p: usize) -> usize
        requires { p < 1024 }
        ensures { LinkIs (book_of self.now) (rows_in self.now) p result }
    {
        let mut g = p;
        // A `while`, here and in `rest`, as each place is had from the one before.
        while g != 0 {
            if self.source.mark(self.places.head(g)) != 0 {
                return g;
            }
            g = self.places.fallback(g);
        }
        0
    }

    // The place records.
    fn write_places(&self, out: &mut [u8])
        ensures { out.new ≡ sets out.old 0 (place_records self.now) }
    {
        let mut first = 0;
        for p in 0..self.places.count() {
            let head = self.places.head(p);
            let count = self.source.count(head);
            let record = PlaceRecord {
                first,
                count,
                fallback: self.places.fallback(p),
                level: self.places.level(p),
                head,
                link: self.link(p),
                mark: self.source.mark(head) as u8,
            };
            record.write(out, 14 * p);
            first += count;
        }
    }

    // The target of edge i of the place g, as it is written.
    fn written_target(&self, g: usize, i: usize, out: &[u8]) -> usize
        requires { (g < 1024) × (i < 65536) }
        ensures { NumberIs (le16_at out.now (14 * count_of self.now + 4 * (le16_at out.now (14 * g) + i) + 2)) 65536
            result }
    {
        let first = wire::le16(out, 14 * g);
        wire::le16(out, 14 * self.places.count() + 4 * (first + i) + 2)
    }

    // For each event the place that it leads to from place 0, whose edge records are written: 0 where the start has no
    // edge.
    fn start_row(&self, out: &[u8]) -> [u16; 256]
        requires { Known (book_of self.now) (rows_in self.now) (count_of self.now) 1 out.now }
        ensures { Starts (book_of self.now) (rows_in self.now) (count_of self.now) result }
    {
        let mut row = [0u16; 256];
        let from = self.source.first_edge(0);
        for i in 0..self.source.count(0) {
            let event = self.source.event(from + i);
            row[event] = self.written_target(0, i, out) as u16;
        }
        row
    }

    // The place of what the event makes of the rest of the chain of p, as a walk over the image finds it: the edge
    // records of the places below p are written, and the walk ends at place 0 by its row.
    fn rest(&self, p: usize, event: usize, out: &[u8]) -> usize
        requires { Walks self.now p out.now × (event < 256) }
        ensures { RestIs (book_of self.now) (rows_in self.now) (count_of self.now) p event result }
    {
        if p == 0 {
            return 0;
        }
        let mut g = self.places.fallback(p);
        while g != 0 {
            if let Some(i) = edge_of(self.source, self.places.head(g), event) {
                return self.written_target(g, i, out);
            }
            g = self.places.fallback(g);
        }
        usize::from(self.start[event])
    }

    // The place that the edge, one of the head of the place p, leads to from p. Where no place has the edge's target in
    // front of the rest, the target stands in the rest already.
    fn after(&self, p: usize, edge: book::EdgeRecord, out: &[u8]) -> usize
        requires { Walks self.now p out.now × (edge.event < 256)
            × (delta (book_of self.now) (get_or (rows_in self.now).heads p 0) edge.event ≡ Some edge.target) }
        ensures { IsPlace whole (rows_in self.now) (count_of self.now)
            (step (delta (book_of self.now)) (chain_of (rows_in self.now) p) edge.event) result }
    {
        let rest = self.rest(p, edge.event, out);
        let level = self.places.level(p);
        let chain = Chain {
            head: edge.target,
            level: level + 1,
            fallback: rest,
        };
        self.places.find(chain).unwrap_or(rest)
    }

    // The edge records of the place p, exactly the edges of its head; where they end.
    fn write_own(&self, p: usize, out: &mut [u8], at: usize) -> usize
        requires { Walks self.now p out.old
            × (edge_end (book_of self.now) (rows_in self.now) (count_of self.now) p ≤ at)
            × (at + 4 * length (outs (book_of self.now) (get_or (rows_in self.now).heads p 0)) ≤ 30720) }
        ensures { Wrote out.old at
            (spread form1.edge_bytes (edges_of (book_of self.now) (list_in self.now) p)) out.new result }
    {
        let head = self.places.head(p);
        let count = self.source.count(head);
        let from = self.source.first_edge(head);
        for i in 0..count {
            let edge = self.source.edge(from + i);
            let record = EdgeRecord {
                event: edge.event as u8,
                target: self.after(p, edge, out),
            };
            record.write(out, at + 4 * i);
        }
        at + 4 * count
    }

    // The edge records of all places.
    fn write_edges(&mut self, out: &mut [u8])
        requires { Known (book_of self.old) (rows_in self.old) (count_of self.old) 0 out.old
            × (edge_end (book_of self.old) (rows_in self.old) (count_of self.old) (count_of self.old)
            ≤ length out.old) }
        ensures { out.new ≡ sets out.old (14 * count_of self.old) (edge_records self.old) }
    {
        let count = self.places.count();
        let mut at = self.write_own(0, out, 14 * count);
        self.start = self.start_row(out);
        for p in 1..count {
            at = self.write_own(p, out, at);
        }
    }
}

// The image of the book with these places, which have so many edges: there is room for it.
pub(crate) fn write_image(source: &Source, places: &Places, edges: usize, out: &mut [u8])
    requires { Numbered (source_book source.now) (rows_of places.now) places.now.count
        × EdgesAre (source_book source.now) (rows_of places.now) places.now.count edges
        × (14 * places.now.count + 4 * edges ≤ length out.old) }
    ensures { out.new ≡ sets out.old 0 (image_bytes form1 (source_book source.now) (chains_in places.now)) }
{
    let mut writing = Writing {
        source,
        places,
        start: [0; 256],
    };
    writing.write_places(out);
    writing.write_edges(out);
    let trailer = Trailer {
        places: places.count(),
        edges,
    };
    trailer.write(out);
}
