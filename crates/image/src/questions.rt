// What is asked of any bytes with a place count.
ghost use Rattle.std.specs.Prelude.{◌≡◌, true, ℕ, ◌<◌, Some};
ghost use Rattle.meaning.specs.Walk.{next};
ghost use Rattle.image.specs.Form.{form1};
ghost use Rattle.image.specs.Questions.{questions_at};
ghost use Rattle.image.specs.Answers.{told_edged, told_walked};
ghost use Rattle.image.specs.Calls.{fallback_in, level_in, mark_in, edge_in, next_in};
ghost use Rattle.image.specs.Held.{HoldsEdges, there_in, SaysOf, MovedIs};

use crate::field::Padded;
use crate::lookup::Edges;
use crate::{Moved, Place, Walk, field};
use meaning::{Reason, Refusal};

// Bytes that are asked as an image of so many places.
#[derive(Clone, Copy)]
pub(crate) struct Asked<'a> {
    pub(crate) bytes: &'a [u8],
    pub(crate) places: u32,
}

impl<'a> Asked<'a> {
    // The place, where there is one of that number; else refused by 20.
    fn there(self, place: u32) -> Result<usize, Refusal>
        ensures { result ≡ there_in self.entry.places place }
    {
        if self.places <= place {
            return Err(Reason::Place.into());
        }
        Ok(place as usize)
    }

    pub(crate) fn place(self, place: u32) -> Result<Place, Refusal>
        ensures { SaysOf result (fallback_in self.entry.bytes.now self.entry.places place)
            (level_in self.entry.bytes.now self.entry.places place)
            (mark_in self.entry.bytes.now self.entry.places place) }
    {
        let p = self.there(place)?;
        let bytes = Padded { bytes: self.bytes };
        Ok(Place {
            fallback: field::fallback(bytes, p) as u32,
            level: field::level(bytes, p) as u32,
            mark: field::mark(bytes, p) as u32,
        })
    }

    // Are the edges among the bytes, as those of an accepted image are? Then they are read without a test for each.
    fn among(self, first: usize, count: usize) -> bool
        requires { (first < 65536) × (count < 65536) }
        ensures { result ≡ true → HoldsEdges self.entry.bytes.now self.entry.places first count }
    {
        14 * self.places as usize + 4 * (first + count) <= self.bytes.len()
    }

    // The number of the place's edge with the event.
    fn find(self, place: usize, event: usize) -> Option<usize>
        requires { place < 4294967296 }
        ensures { (result ≡ (questions_at form1 self.entry.bytes.now self.entry.places).find place event)
            × ((j : ℕ) → result ≡ Some j → j < 131072) }
    {
        let padded = Padded { bytes: self.bytes };
        let places = self.places as usize;
        let first = field::first(padded, place);
        let count = field::count(padded, place);
        if self.among(first, count) {
            let edges = Edges {
                bytes: self.bytes,
                places,
                first,
                count,
            };
            edges.linear(event)
        } else {
            let edges = Edges {
                bytes: padded,
                places,
                first,
                count,
            };
            edges.linear(event)
        }
    }

    pub(crate) fn edge(self, place: u32, event: u8) -> Result<Option<u32>, Refusal>
        ensures { told_edged result ≡ edge_in self.entry.bytes.now self.entry.places place event }
    {
        let p = self.there(place)?;
        match self.find(p, usize::from(event)) {
            Some(j) => Ok(Some(
                field::edge_target(Padded { bytes: self.bytes }, self.places as usize, j) as u32,
            )),
            None => Ok(None),
        }
    }

    // One event. A place has fewer fallbacks than its number, where each is lower; so many are tried, whatever the
    // bytes.
    fn moved(self, place: usize, event: usize) -> Moved
        requires { place < 4294967296 }
        ensures { MovedIs (next (questions_at form1 self.entry.bytes.now self.entry.places) place event) 65536 place
            result }
    {
        let mut p = place;
        let mut steps = 0;
        loop {
            if let Some(j) = self.find(p, event) {
                return Moved {
                    place: field::edge_target(
                        Padded { bytes: self.bytes },
                        self.places as usize,
                        j,
                    ),
                    steps,
                };
            }
            if p == 0 || steps == place {
                return Moved { place: 0, steps };
            }
            p = field::fallback(Padded { bytes: self.bytes }, p);
            steps += 1;
        }
    }

    pub(crate) fn next(self, place: u32, event: u8) -> Result<Walk, Refusal>
        ensures { told_walked result ≡ next_in self.entry.bytes.now self.entry.places place event }
    {
        let p = self.there(place)?;
        let moved = self.moved(p, usize::from(event));
        Ok(Walk {
            place: moved.place as u32,
            level: field::level(Padded { bytes: self.bytes }, moved.place) as u32,
            steps: moved.steps as u32,
        })
    }
}
