// The open image: checked once, when it is opened.
ghost use Rattle.std.specs.Prelude.{◌≡◌};
ghost use Rattle.image.specs.Calls.{places_in, edges_in};
ghost use Rattle.image.specs.Rules.{check_image};

use crate::questions::Asked;
use crate::{Counts, Walk, check_image};
use meaning::Refusal;

// The caller's bytes with the counts of their check, 0 where they are refused. It is had only by `open`.
#[derive(Clone, Copy)]
pub struct Image<'a> {
    bytes: &'a [u8],
    counts: Counts,
    ghost counted: { (counts.places ≡ places_in (check_image bytes.now))
        × (counts.edges ≡ edges_in (check_image bytes.now)) },
}

impl<'a> Image<'a> {
    ghost use Rattle.std.specs.Prelude.{◌≡◌};
    ghost use Rattle.image.specs.Answers.{told_asked, told_edged, told_walked};
    ghost use Rattle.image.specs.Calls.{opened, fallback_in, level_in, mark_in, edge_in, next_in};
    ghost use Rattle.image.specs.Opened.{lent};

    pub(crate) fn new(bytes: &'a [u8]) -> Image<'a>
        ensures { lent result ≡ bytes.entry }
    {
        let counts = check_image(bytes).unwrap_or_default();
        Image { bytes, counts }
    }

    fn asked(self) -> Asked<'a>
        ensures { (result.bytes ≡ self.entry.bytes) × (result.places ≡ opened (lent self.entry).now) }
    {
        Asked {
            bytes: self.bytes,
            places: self.counts.places,
        }
    }

    pub fn fallback(self, place: u32) -> Result<u32, Refusal>
        ensures { told_asked result ≡ fallback_in (lent self.entry).now (opened (lent self.entry).now) place }
    {
        Ok(self.asked().place(place)?.fallback)
    }

    pub fn level(self, place: u32) -> Result<u32, Refusal>
        ensures { told_asked result ≡ level_in (lent self.entry).now (opened (lent self.entry).now) place }
    {
        Ok(self.asked().place(place)?.level)
    }

    pub fn mark(self, place: u32) -> Result<u32, Refusal>
        ensures { told_asked result ≡ mark_in (lent self.entry).now (opened (lent self.entry).now) place }
    {
        Ok(self.asked().place(place)?.mark)
    }

    pub fn edge(self, place: u32, event: u8) -> Result<Option<u32>, Refusal>
        ensures { told_edged result ≡ edge_in (lent self.entry).now (opened (lent self.entry).now) place event }
    {
        self.asked().edge(place, event)
    }

    pub(crate) fn next(self, place: u32, event: u8) -> Result<Walk, Refusal>
        ensures { told_walked result ≡ next_in (lent self.entry).now (opened (lent self.entry).now) place event }
    {
        self.asked().next(place, event)
    }
}
