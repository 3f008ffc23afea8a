// What every call may be refused for. All else of this crate is definitions in specs/ and theorems in proofs/.
#![tactic(auto)]

// Why a call is refused, in the order of document 01: `reason as u32` is the refusal's number.
#[derive(Clone, Copy, Debug, PartialEq, Eq)]
pub enum Reason {
    // a book
    Short = 1,
    Long,
    Letters,
    Form,
    Counts,
    Distance,
    Spare,
    Sum,
    Order,
    Target,
    Start,
    Entry,
    Exit,
    // a compile
    Places,
    Edges,
    Room,
    // an image
    Trailer,
    PlaceRecord,
    EdgeRecord,
    // a question, a walk, a run
    Place,
    Base,
    // a list of records
    ListLength,
    ListRoom,
    Part,
    // the listing program alone
    Log,
}

// A refusal: its reason, and the offset of the record at fault, 0 where it is of no record.
#[derive(Clone, Copy, Debug, PartialEq, Eq)]
pub struct Refusal {
    pub reason: Reason,
    pub place: u32,
}

impl From<Reason> for Refusal {
    ghost use Rattle.std.specs.Prelude.{◌≡◌};

    // of no record
    ghost from_gives = { λ r e. e ≡ record { reason = r; place = 0 } };

    fn from(reason: Reason) -> Refusal {
        Refusal { reason, place: 0 }
    }
}
