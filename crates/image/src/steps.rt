// A table of every step of a walk over an accepted image: a row for each place, an entry for each class of events.
ghost use Rattle.std.specs.Prelude.{◌≡◌, ℕ, ◌+◌, ◌*◌, ◌≤◌, ◌<◌, length, get_or, replicate};
ghost use Rattle.meaning.specs.Walk.{next};
ghost use Rattle.image.specs.Form.{form1, place_at, edge_at};
ghost use Rattle.image.specs.Held.{edges_of, MovedIs};
ghost use Rattle.image.specs.Steps.{IsSteps, IsClasses, Copied, Owned};
ghost use Rattle.image.specs.Sought.{questions_of};

use crate::accepted_image::AcceptedImage;
use crate::{Moved, field};

// ---- the classes

// Each event that an edge has gets a class of its own, from 1 on; any other keeps class 0. How many there are, with 0.
#[derive(Drop)]
pub(crate) struct Classes<'a> {
    image: AcceptedImage<'a>,
    of: [u16; 256],
    pub(crate) count: usize,
    ghost are: { IsClasses (edge_at form1 image.bytes.now image.places) (edges_of image.bytes.now) count of },
}

// ---- the rows

// Place and steps of an entry are one number of 4 bytes, as 32,768 of them stand on the stack.

// A row of n entries as that of a lower place, with one failure step more in each.
fn copy_row(table: &mut [u32; 32768], n: usize, from: usize, to: usize)
    requires { (from + n ≤ to) × (to + n ≤ 32768) × (length table.old ≡ 32768)
        × ((i : ℕ) → i < n → get_or table.old (from + i) 0 < 4294901760) }
    ensures { Copied n from to table.old table.new }
{
    for i in 0..n {
        table[to + i] = table[from + i] + 65536;
    }
}

impl<'a> Classes<'a> {
    pub(crate) fn new(image: AcceptedImage<'a>) -> Self
        ensures { result.image ≡ image.entry }
    {
        let mut of = [0; 256];
        let mut count = 1;
        for j in 0..field::edges(image.bytes) {
            let event = image.event(j);
            if of[event] == 0 {
                of[event] = count as u16;
                count += 1;
            }
        }
        Classes { image, of, count }
    }

    // The targets of a place's own edges over its row, from the last to the first, which a search finds.
    fn own_edges(&self, place: usize, row: usize, table: &mut [u32; 32768])
        requires { (place < self.now.image.places) × (row + self.now.count ≤ 32768) × (length table.old ≡ 32768) }
        ensures { Owned (edge_at form1 self.now.image.bytes.now self.now.image.places)
            (place_at form1 self.now.image.bytes.now place).count
            (place_at form1 self.now.image.bytes.now place).first row self.now.of table.old table.new }
    {
        let image = self.image;
        let edges = image.edges(place);
        for j in (edges.first..edges.first + edges.count).rev() {
            let class = usize::from(self.of[image.event(j)]);
            table[row + class] = image.target(j) as u32;
        }
    }

    // Place 0 starts with no step, any other with its fallback's row.
    pub(crate) fn fill(&self, table: &mut [u32; 32768])
        requires { (self.now.count * self.now.image.places ≤ 32768) × (table.old ≡ replicate 32768 0) }
        ensures { IsSteps (questions_of self.now.image) self.now.count self.now.of table.new }
    {
        self.own_edges(0, 0, table);
        for p in 1..self.image.places {
            let fallback = self.image.fallback(p);
            let row = self.count * p;
            copy_row(table, self.count, self.count * fallback, row);
            self.own_edges(p, row, table);
        }
    }
}

// ---- one event

// The classes with the rows filled.
#[derive(Clone, Copy)]
pub(crate) struct Steps<'a> {
    pub(crate) classes: &'a Classes<'a>,
    pub(crate) rows: &'a [u32; 32768],
    ghost right: { IsSteps (questions_of classes.now.image) classes.now.count classes.now.of rows.now },
}

impl<'a> Steps<'a> {
    pub(crate) fn look(self, place: usize, event: usize) -> Moved
        requires { (place < self.classes.now.image.places) × (event < 256) }
        ensures { MovedIs (next (questions_of self.entry.classes.now.image) place event)
            self.entry.classes.now.image.places place result }
    {
        let class = usize::from(self.classes.of[event]);
        let entry = self.rows[self.classes.count * place + class] as usize;
        Moved {
            place: entry % 65536,
            steps: entry / 65536,
        }
    }
}
