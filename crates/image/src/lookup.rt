// The search of a place's edges for an event: one after the other, or where events rise a window and halving.
ghost use Rattle.std.specs.Prelude.{◌≡◌, ℕ, ◌+◌, ◌-◌, ◌*◌, ◌≤◌, ◌<◌, min};
ghost use Rattle.image.specs.Form.{form1, edge_at};
ghost use Rattle.image.specs.Questions.{seek};
ghost use Rattle.image.specs.Held.{Rising};

use crate::field;
use crate::field::Bytes;

// Edges that can be read, of bytes with so many places: so many from the first on.
#[derive(Drop)]
pub(crate) struct Edges<B: Bytes> {
    pub(crate) bytes: B,
    pub(crate) places: usize,
    pub(crate) first: usize,
    pub(crate) count: usize,
    ghost held: { 14 * places + 4 * (first + count) ≤ B.end bytes },
}

impl<B: Bytes> Edges<B> {
    pub(crate) fn linear(&self, event: usize) -> Option<usize>
        ensures { result
            ≡ seek (edge_at form1 (B.list self.now.bytes) self.now.places) event self.now.count self.now.first }
    {
        for j in self.first..self.first + self.count {
            if field::edge_event(self.bytes, self.places, j) == event {
                return Some(j);
            }
        }
        None
    }

    fn halved(&self, event: usize) -> Option<usize>
        requires { (0 < self.now.count)
            × Rising (edge_at form1 (B.list self.now.bytes) self.now.places) self.now.first self.now.count
            × (event < 256) }
        ensures { result
            ≡ seek (edge_at form1 (B.list self.now.bytes) self.now.places) event self.now.count self.now.first }
    {
        let mut left = self.count;
        let mut j = self.first;
        // a `while`, as each turn leaves a half; the library's halving would branch at each (for the other two halvings
        // see `edge_of` in `compile`)
        while 1 < left {
            let h = left / 2;
            j += ahead(h, field::edge_event(self.bytes, self.places, j + h), event);
            left -= h;
        }
        if field::edge_event(self.bytes, self.places, j) == event {
            Some(j)
        } else {
            None
        }
    }

    // An event among n bytes that rise stands from event + n - 256 to event.
    pub(crate) fn windowed(&self, event: usize) -> Option<usize>
        requires { (event < 256)
            × Rising (edge_at form1 (B.list self.now.bytes) self.now.places) self.now.first self.now.count
            × ((i : ℕ) → i < self.now.count
            → (edge_at form1 (B.list self.now.bytes) self.now.places (self.now.first + i)).event < 256) }
        ensures { result
            ≡ seek (edge_at form1 (B.list self.now.bytes) self.now.places) event self.now.count self.now.first }
    {
        let low = (event + self.count).saturating_sub(256);
        let high = (event + 1).min(self.count);
        if low < high {
            let window = Edges {
                bytes: self.bytes,
                places: self.places,
                first: self.first + low,
                count: high - low,
            };
            window.halved(event)
        } else {
            None
        }
    }
}

// How far a half reaches, or 0 where the event stands before it: computed, as no branch could be foretold.
fn ahead(h: usize, found: usize, event: usize) -> usize
    requires { (found < 256) × (event < 256) }
    ensures { (result ≤ h) × (found ≤ event → result ≡ h) × (event < found → result ≡ 0) }
{
    h * ((event + 256 - found) / 256)
}
