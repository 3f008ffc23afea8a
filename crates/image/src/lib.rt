// An image of a signature book: checked, opened and asked, walked one event at a time, run over a log.
#![tactic(auto)]

ghost use Rattle.std.specs.Prelude.{◌≡◌};
ghost use Rattle.image.specs.Answers.{told_checked, told_asked, told_edged, told_walked, told_ran};
ghost use Rattle.image.specs.Calls.{checked_first, fallback_in, level_in, mark_in, edge_in, next_in};
ghost use Rattle.image.specs.Calls.{opened, run_answer, run_memory};
ghost use Rattle.image.specs.Held.{SaysOf};
ghost use Rattle.image.specs.Opened.{lent};
ghost use Rattle.image.specs.Rules.{check_image};

use meaning::{Reason, Refusal};

mod accepted_image;
mod check;
mod field;
mod lookup;
mod open_image;
mod over;
mod questions;
mod steps;

use accepted_image::AcceptedImage;
use check::Counted;
pub use open_image::Image;
use questions::Asked;

// The last two bytes of an image.
pub const SM: [u8; 2] = *b"SM";

// How many places and edges an image has.
#[derive(Clone, Copy, Debug, Default, PartialEq, Eq)]
pub struct Counts {
    pub places: u32,
    pub edges: u32,
}

// A place with its level, and the failure steps of the event that led there.
#[derive(Clone, Copy, Debug, Default, PartialEq, Eq)]
pub struct Walk {
    pub place: u32,
    pub level: u32,
    pub steps: u32,
}

// What a run did: events taken, the place where it stands, records, failure steps.
#[derive(Clone, Copy, Debug, PartialEq, Eq)]
pub struct Ran {
    pub taken: usize,
    pub place: u32,
    pub records: usize,
    pub steps: usize,
}

// What is asked of a place's record.
#[derive(Clone, Copy)]
struct Place {
    fallback: u32,
    level: u32,
    mark: u32,
}

// Where one event leads, and its failure steps.
#[derive(Clone, Copy)]
struct Moved {
    place: usize,
    steps: usize,
}

// Where a run stands, and whether it has no room for the next event's records. A flag, as a run stands somewhere either
// way: both cases of an enum would hold the same four numbers.
#[derive(Clone, Copy)]
struct Going {
    taken: usize,
    place: usize,
    records: usize,
    steps: usize,
    full: bool,
}

// Refused by 17 to 19.
pub fn check_image(image: &[u8]) -> Result<Counts, Refusal>
    ensures { told_checked result ≡ check_image image.now }
{
    if !check::trailer_right(image) {
        return Err(Reason::Trailer.into());
    }
    let counted = Counted {
        bytes: image,
        places: field::places(image),
        edges: field::edges(image),
    };
    if let Some(p) = counted.places_fault() {
        return Err(Refusal {
            reason: Reason::PlaceRecord,
            place: field::place_offset(p),
        });
    }
    if let Some(j) = counted.edges_fault() {
        return Err(Refusal {
            reason: Reason::EdgeRecord,
            place: field::edge_offset(counted.places, j),
        });
    }
    Ok(Counts {
        places: counted.places as u32,
        edges: counted.edges as u32,
    })
}

// ---- asked of the image's bytes, which are checked first: refused by 17 to 19, and by 20 for a place that is not
// there

// Here and in `ask_edge` and `step` the image is checked and then asked: a function for the two would have a clause that
// is longer than they are.
fn ask_place(image: &[u8], place: u32) -> Result<Place, Refusal>
    ensures { SaysOf result (checked_first image.now (λ q. fallback_in image.now q place))
        (checked_first image.now (λ q. level_in image.now q place))
        (checked_first image.now (λ q. mark_in image.now q place)) }
{
    let places = check_image(image)?.places;
    let asked = Asked {
        bytes: image,
        places,
    };
    asked.place(place)
}

pub fn ask_fallback(image: &[u8], place: u32) -> Result<u32, Refusal>
    ensures { told_asked result ≡ checked_first image.now (λ q. fallback_in image.now q place) }
{
    Ok(ask_place(image, place)?.fallback)
}

pub fn ask_level(image: &[u8], place: u32) -> Result<u32, Refusal>
    ensures { told_asked result ≡ checked_first image.now (λ q. level_in image.now q place) }
{
    Ok(ask_place(image, place)?.level)
}

pub fn ask_mark(image: &[u8], place: u32) -> Result<u32, Refusal>
    ensures { told_asked result ≡ checked_first image.now (λ q. mark_in image.now q place) }
{
    Ok(ask_place(image, place)?.mark)
}

// The target of the place's edge with the event, where it has one.
pub fn ask_edge(image: &[u8], place: u32, event: u8) -> Result<Option<u32>, Refusal>
    ensures { told_edged result ≡ checked_first image.now (λ q. edge_in image.now q place event) }
{
    let places = check_image(image)?.places;
    let asked = Asked {
        bytes: image,
        places,
    };
    asked.edge(place, event)
}

// One event of a walk.
pub fn step(image: &[u8], place: u32, event: u8) -> Result<Walk, Refusal>
    ensures { told_walked result ≡ checked_first image.now (λ q. next_in image.now q place event) }
{
    let places = check_image(image)?.places;
    let asked = Asked {
        bytes: image,
        places,
    };
    asked.next(place, event)
}

// One event of a walk over an image whose place count is known: it is not checked again.
pub fn next_in(image: &[u8], places: u32, place: u32, event: u8) -> Result<Walk, Refusal>
    ensures { told_walked result ≡ next_in image.now places place event }
{
    let asked = Asked {
        bytes: image,
        places,
    };
    asked.next(place, event)
}

// ---- the open image

// A refused image is open with no places.
pub fn open<'a>(image: &'a [u8]) -> Image<'a>
    ensures { lent result ≡ image.entry }
{
    Image::new(image)
}

impl Walk {
    // The next walk. Level and steps of this one are not looked at.
    pub fn next<'a>(self, image: Image<'a>, event: u8) -> Result<Walk, Refusal>
        ensures { told_walked result ≡ next_in (lent image.entry).now (opened (lent image.entry).now) self.place event }
    {
        image.next(self.place, event)
    }
}

// ---- a run

// Refused by 17 to 21.
pub fn run(image: &[u8], place: u32, base: u32, log: &[u8], out: &mut [u8]) -> Result<Ran, Refusal>
    ensures { (told_ran result ≡ run_answer image.now place base log.now out.old)
        × (out.new ≡ run_memory image.now place base log.now out.old) }
{
    let counts = check_image(image)?;
    if counts.places <= place {
        return Err(Reason::Place.into());
    }
    let start = base as usize;
    if u32::MAX as usize - start < log.len() {
        return Err(Reason::Base.into());
    }
    let image = AcceptedImage {
        bytes: image,
        places: counts.places as usize,
    };
    Ok(over::run(image, place as usize, start, log, out))
}
