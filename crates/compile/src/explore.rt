// The places of a book, explored breadth first. No edges are kept: where an edge leads is found again when it is
// written.
ghost use Rattle.std.specs.Prelude.{◌≡◌, true, ◌+◌, ◌≤◌, ◌<◌};
ghost use Rattle.meaning.specs.Book.{delta};
ghost use Rattle.compile.specs.Held.{source_book};
ghost use Rattle.compile.specs.Explore.{Neither};

use crate::source::Source;
use crate::work::{Chain, Places, nothing_seen};
use book::EdgeRecord;
use meaning::Refusal;

// A place below in a chain, and the state that an event leads to from its head.
#[derive(Clone, Copy, Debug, PartialEq, Eq)]
struct Lead {
    place: usize,
    to: usize,
}

// The exploration of a book, and the places found so far.
#[derive(Drop)]
pub(crate) struct Exploration<'a> {
    pub(crate) source: &'a Source<'a>,
    pub(crate) places: Places,
}

// Whether none of `count` edges from edge from on has one of the events.
fn neither(source: &Source, from: usize, count: usize, a: usize, b: usize) -> bool
    requires { from + count ≤ 1000000000 }
    ensures { result ≡ true → Neither source.now.table.bytes.now source.now.table.states count from a b }
{
    // A `for`: with `.all` over the range the proof of what is returned (`returns`) stayed open.
    for j in from..from + count {
        let event = source.event(j);
        if event == a || event == b {
            return false;
        }
    }
    true
}

// Whether the state q leads by the event a to where it leads by b. Most states of a long chain have few edges, and
// none by either event.
fn leads_alike(source: &Source, q: usize, a: usize, b: usize) -> bool
    requires { q < 512 }
    ensures { result ≡ true → delta (source_book source.now) q a ≡ delta (source_book source.now) q b }
{
    let count = source.count(q);
    if count <= 8 && neither(source, source.first_edge(q), count, a, b) {
        return true;
    }
    source.led(q, a) == source.led(q, b)
}

impl<'a> Exploration<'a> {
    ghost use Rattle.std.specs.Prelude.{◌≡◌, true, [], ◌<◌, get_or, Some};
    ghost use Rattle.meaning.specs.Chain.{step};
    ghost use Rattle.meaning.specs.Places.{meet, opened};
    ghost use Rattle.meaning.specs.Book.{delta, outs};
    ghost use Rattle.compile.specs.Explore.{Seen, RestAt, RestMet, Grown, LeadAt, RestAlike, EdgeAlike, Alike, Opened};
    ghost use Rattle.compile.specs.Explore.{Explored};
    ghost use Rattle.compile.specs.Exploring.{book_of, rows_in, count_of, chain_in, list_in};

    // The first place below p in its chain from whose head the event leads on.
    fn leading(&self, p: usize, event: usize) -> Option<Lead>
        requires { p < 1024 }
        ensures { LeadAt (delta (book_of self.now)) (rows_in self.now) p event result }
    {
        let mut f = p;
        // A `while`, here and in `alike`, as each place is had from the one before.
        while f != 0 {
            f = self.places.fallback(f);
            if let Some(to) = self.source.led(self.places.head(f), event) {
                return Some(Lead { place: f, to });
            }
        }
        None
    }

    // The place of what the event makes of the rest of the chain of p. A chain has at most 511 members, so the calls
    // are at most 511 deep: some 180 bytes of stack each, 90 KB in all.
    fn rest_place(&self, p: usize, event: usize, seen: &mut [bool; 512]) -> usize
        requires { (p < count_of self.now) × Seen seen.old [] }
        ensures { RestAt (book_of self.now) (rows_in self.now) (count_of self.now) p event result seen.new }
    {
        let Some(lead) = self.leading(p, event) else {
            return 0;
        };
        let rest = self.rest_place(lead.place, event, seen);
        let level = self.places.level(lead.place);
        let chain = Chain {
            head: lead.to,
            level: level + 1,
            fallback: rest,
        };
        self.places.settle(chain, seen)
    }

    // The chain of the place p after the event, which leads from its head to the state q, is met.
    fn meet_edge(&mut self, p: usize, event: usize, q: usize) -> Result<(), Refusal>
        requires { (p < count_of self.old) × RestMet (book_of self.old) (rows_in self.old) (count_of self.old) p event
            × (delta (book_of self.old) (get_or (rows_in self.old).heads p 0) event ≡ Some q) }
        ensures grown { Grown (rows_in self.new) (count_of self.new)
            (meet (step (delta (book_of self.old)) (chain_in self.old p) event) (list_in self.old)) result }
        ensures same_source { self.new.source ≡ self.old.source }
    {
        let mut seen = nothing_seen();
        let rest = self.rest_place(p, event, &mut seen);
        let level = self.places.level(p);
        let chain = Chain {
            head: q,
            level: level + 1,
            fallback: rest,
        };
        self.places.add(chain, &seen)
    }

    // Whether every state of the chain of p but its head, and the start, leads by the event a to where it leads by b.
    fn alike(&self, p: usize, a: usize, b: usize) -> bool
        requires { p < 1024 }
        ensures { result ≡ true
            → RestAlike (delta (book_of self.now)) (rows_in self.now) p a b }
    {
        let mut f = p;
        while f != 0 {
            let next = self.places.fallback(f);
            let head = self.places.head(next);
            if !leads_alike(self.source, head, a, b) {
                return false;
            }
            f = next;
        }
        true
    }

    // Whether edge k leads to where the edge does, and its event from the other states of the chain of p to where the
    // edge's event leads. The targets are compared first, as few are equal.
    fn edge_alike(&self, p: usize, edge: EdgeRecord, k: usize) -> bool
        requires { p < 1024 }
        ensures { result ≡ true → EdgeAlike self.now.source.now.table.bytes.now self.now.source.now.table.states
            (rows_in self.now) p edge.event edge.target k }
    {
        self.source.target(k) == edge.target && self.alike(p, self.source.event(k), edge.event)
    }

    // Whether one of the three edges before edge j, from edge from on, leads from every state of the chain of p to
    // where the edge does.
    fn met_before(&self, p: usize, edge: EdgeRecord, from: usize, j: usize) -> bool
        requires { p < 1024 }
        ensures { result ≡ true → Alike self.now.source.now.table.bytes.now self.now.source.now.table.states
            (rows_in self.now) p edge.event edge.target from j }
    {
        (from.max(j.saturating_sub(3))..j).any(|k| self.edge_alike(p, edge, k))
    }

    // The place p is opened: the chains after the events of its head's edges are met, in their order. After an event
    // that leads as an earlier one does the chain was met before. Such events are looked for until eight are not: a
    // look may go down the whole chain, in vain.
    fn open_place(&mut self, p: usize) -> Result<(), Refusal>
        requires { (p < count_of self.old)
            × Opened (delta (book_of self.old)) (outs (book_of self.old)) p (list_in self.old) }
        ensures grown { Grown (rows_in self.new) (count_of self.new)
            (opened (delta (book_of self.old)) (outs (book_of self.old)) p (list_in self.old)) result }
        ensures same_source { self.new.source ≡ self.old.source }
    {
        let head = self.places.head(p);
        let from = self.source.first_edge(head);
        let mut tries: usize = 8;
        for j in from..from + self.source.count(head) {
            let edge = self.source.edge(j);
            if 0 < tries && self.met_before(p, edge, from, j) {
                continue;
            }
            tries = tries.saturating_sub(1);
            self.meet_edge(p, edge.event, edge.target)?;
        }
        Ok(())
    }

    // The places of the book are found: the number of their edges. The search goes on however many edges there are, as
    // too many places are refused first.
    pub(crate) fn explore(&mut self) -> Result<usize, Refusal>
        requires { count_of self.old ≡ 1 }
        ensures { Explored (book_of self.old) (rows_in self.new) (count_of self.new) result }
    {
        let mut edges = 0;
        let mut p = 0;
        // A `while`, as places are added while they are opened.
        while p < self.places.count() {
            edges += self.source.count(self.places.head(p));
            self.open_place(p)?;
            p += 1;
        }
        Ok(edges)
    }
}
