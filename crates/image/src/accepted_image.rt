// An image that the check accepts: the numbers of its places and edges, and the edge of a place.
ghost use Rattle.std.specs.Prelude.{◌≡◌, ℕ, ◌<◌, get_or};
ghost use Rattle.wire.specs.Little.{NumberIs};
ghost use Rattle.image.specs.Form.{form1, place_at, edge_at};
ghost use Rattle.image.specs.Questions.{questions_at};
ghost use Rattle.image.specs.Held.{Accepted, edges_of};

use crate::field;
use crate::lookup::Edges;

// Its bytes, and how many places it has. It is made where the check has said so, and nowhere else. That a number is one
// of its places is asked at each call: a type of places would have to name the image that they are of.
#[derive(Clone, Copy)]
pub(crate) struct AcceptedImage<'a> {
    pub(crate) bytes: &'a [u8],
    pub(crate) places: usize,
    ghost accepted: { Accepted bytes.now places },
    ghost small: { (i : ℕ) → get_or bytes.now i 0 < 256 },
}

impl<'a> AcceptedImage<'a> {
    // ---- a place

    // Its edges are among the bytes.
    pub(crate) fn edges(self, p: usize) -> Edges<&'a [u8]>
        requires { p < self.places }
        ensures { (result.bytes ≡ self.entry.bytes) × (result.places ≡ self.entry.places)
            × NumberIs (place_at form1 self.entry.bytes.now p).first 65536 result.first
            × NumberIs (place_at form1 self.entry.bytes.now p).count 65536 result.count }
    {
        Edges {
            bytes: self.bytes,
            places: self.places,
            first: field::first(self.bytes, p),
            count: field::count(self.bytes, p),
        }
    }

    pub(crate) fn fallback(self, p: usize) -> usize
        requires { p < self.places }
        ensures { NumberIs (place_at form1 self.entry.bytes.now p).fallback 65536 result }
    {
        field::fallback(self.bytes, p)
    }

    pub(crate) fn level(self, p: usize) -> usize
        requires { p < self.places }
        ensures { NumberIs (place_at form1 self.entry.bytes.now p).level 65536 result }
    {
        field::level(self.bytes, p)
    }

    pub(crate) fn link(self, p: usize) -> usize
        requires { p < self.places }
        ensures { NumberIs (place_at form1 self.entry.bytes.now p).link 65536 result }
    {
        field::link(self.bytes, p)
    }

    pub(crate) fn mark(self, p: usize) -> usize
        requires { p < self.places }
        ensures { NumberIs (place_at form1 self.entry.bytes.now p).mark 256 result }
    {
        field::mark(self.bytes, p)
    }

    // ---- an edge

    pub(crate) fn event(self, j: usize) -> usize
        requires { j < edges_of self.bytes.now }
        ensures { NumberIs (edge_at form1 self.entry.bytes.now self.entry.places j).event 256 result }
    {
        field::edge_event(self.bytes, self.places, j)
    }

    pub(crate) fn target(self, j: usize) -> usize
        requires { j < edges_of self.bytes.now }
        ensures { NumberIs (edge_at form1 self.entry.bytes.now self.entry.places j).target 65536 result }
    {
        field::edge_target(self.bytes, self.places, j)
    }

    // The number of the place's edge with the event.
    pub(crate) fn find(self, place: usize, event: usize) -> Option<usize>
        requires { (place < self.places) × (event < 256) }
        ensures { result ≡ (questions_at form1 self.entry.bytes.now self.entry.places).find place event }
    {
        let edges = self.edges(place);
        if edges.count <= 8 {
            edges.linear(event)
        } else {
            edges.windowed(event)
        }
    }
}
