// Refusals 17, 18 and 19.
ghost use Rattle.std.specs.Prelude.{◌≡◌, ◌+◌, ◌≤◌, ◌<◌};
ghost use Rattle.std.specs.Prelude.{None};
ghost use Rattle.image.specs.Form.{form1, place_at, edge_at};
ghost use Rattle.image.specs.Rules.{counts_right, trailer_right, start_right, other_right, place_right, edge_right};
ghost use Rattle.image.specs.Held.{Sized, FaultIs, trailer_with, link_for};
ghost use Rattle.image.specs.Held.{below_at, reached_at, places_fault_at, events_fault_at, edges_fault_at};

use crate::field;

// ---- 17

fn counts_right(n: usize, distance: usize, places: usize, edges: usize, form: usize) -> bool
    requires { (places < 65536) × (edges < 65536) }
    ensures { result ≡ counts_right form1 n (trailer_with distance places edges form) }
{
    let size = 14 * places + 4 * edges + 12;
    (form == 1)
        & (1 <= places)
        & (places <= 1024)
        & (edges <= 4096)
        & (distance == size)
        & (n == size)
}

pub(crate) fn trailer_right(image: &[u8]) -> bool
    ensures { result ≡ trailer_right form1 image.now }
{
    let n = image.len();
    if n < 12 {
        return false;
    }
    let letters = field::has_letters(image);
    let counts = counts_right(
        n,
        field::distance(image),
        field::places(image),
        field::edges(image),
        field::form(image),
    );
    letters & counts
}

// An image as long as its counts say.
#[derive(Clone, Copy)]
pub(crate) struct Counted<'a> {
    pub(crate) bytes: &'a [u8],
    pub(crate) places: usize,
    pub(crate) edges: usize,
    ghost sized: { Sized bytes.now places edges },
}

// Where a place links that has this mark, and whose fallback links to `below`.
fn link_for(p: usize, mark: usize, below: usize) -> usize
    ensures { result ≡ link_for p mark below }
{
    if mark == 0 { below } else { p }
}

impl<'a> Counted<'a> {
    // ---- 18

    fn start_right(self) -> bool
        requires { 0 < self.places }
        ensures { result ≡ start_right (place_at form1 self.entry.bytes.now 0) }
    {
        let head = field::head(self.bytes, 0);
        let fallback = field::fallback(self.bytes, 0);
        let level = field::level(self.bytes, 0);
        let link = field::link(self.bytes, 0);
        let mark = field::mark(self.bytes, 0);
        (head == 0) & (fallback == 0) & (level == 0) & (link == 0) & (mark == 0)
    }

    // The fallback's record is read only where it is a lower one.
    fn other_right(self, p: usize) -> bool
        requires { p < self.places }
        ensures { result ≡ other_right p (place_at form1 self.entry.bytes.now p) (below_at self.entry.bytes.now p) }
    {
        let fallback = field::fallback(self.bytes, p);
        if p <= fallback {
            return false;
        }
        let head = field::head(self.bytes, p);
        let level = field::level(self.bytes, p);
        let link = field::link(self.bytes, p);
        let mark = field::mark(self.bytes, p);
        let below = field::level(self.bytes, fallback);
        let wanted = link_for(p, mark, field::link(self.bytes, fallback));
        (1 <= head) & (head <= 511) & (below < level) & (link == wanted)
    }

    // After places with so many edges in all.
    fn place_right(self, p: usize, sum: usize) -> bool
        requires { p < self.places }
        ensures { result
            ≡ place_right p sum (place_at form1 self.entry.bytes.now p) (below_at self.entry.bytes.now p) }
    {
        let first = field::first(self.bytes, p);
        let spare = field::spare(self.bytes, p);
        let own = (first == sum) & (spare == 0);
        if p == 0 {
            own & self.start_right()
        } else {
            own & self.other_right(p)
        }
    }

    // The first place record at fault; past the last where the counts do not add up, as the definition of its name says.
    pub(crate) fn places_fault(self) -> Option<usize>
        ensures { FaultIs (places_fault_at self.entry.bytes.now self.entry.edges self.entry.places 0 0)
            self.entry.places result }
    {
        let mut sum = 0;
        for p in 0..self.places {
            if !self.place_right(p, sum) {
                return Some(p);
            }
            sum += field::count(self.bytes, p);
        }
        if sum == self.edges {
            None
        } else {
            Some(self.places)
        }
    }

    // ---- 19

    // The target's record is read only where there is one.
    fn edge_right(self, level: usize, floor: usize, j: usize) -> bool
        requires { (j < self.edges) × (level < 65536) }
        ensures { result
            ≡ edge_right self.entry.places level floor (edge_at form1 self.entry.bytes.now self.entry.places j)
            (reached_at self.entry.bytes.now self.entry.places j) }
    {
        let target = field::edge_target(self.bytes, self.places, j);
        if self.places <= target {
            return false;
        }
        let spare = field::edge_spare(self.bytes, self.places, j);
        let event = field::edge_event(self.bytes, self.places, j);
        let reached = field::level(self.bytes, target);
        (spare == 0) & (floor <= event) & (1 <= target) & (reached <= level + 1)
    }

    // The first record at fault of one place's edges.
    fn events_fault(self, level: usize, first: usize, count: usize) -> Option<usize>
        requires { (first + count ≤ self.edges) × (level < 65536) }
        ensures { FaultIs (events_fault_at self.entry.bytes.now self.entry.places level count first 0)
            (first + count) result }
    {
        let mut floor = 0;
        for j in first..first + count {
            if !self.edge_right(level, floor, j) {
                return Some(j);
            }
            floor = field::edge_event(self.bytes, self.places, j) + 1;
        }
        None
    }

    // The first edge record at fault, where every place record is right.
    pub(crate) fn edges_fault(self) -> Option<usize>
        requires { places_fault_at self.bytes.now self.edges self.places 0 0 ≡ None }
        ensures { FaultIs (edges_fault_at self.entry.bytes.now self.entry.places self.entry.places 0 0)
            self.entry.edges result }
    {
        let mut first = 0;
        for p in 0..self.places {
            let count = field::count(self.bytes, p);
            let level = field::level(self.bytes, p);
            if let Some(j) = self.events_fault(level, first, count) {
                return Some(j);
            }
            first += count;
        }
        None
    }
}
