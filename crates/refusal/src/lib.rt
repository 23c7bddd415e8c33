// The numbered refusals of documents 01 and 02. No other crate writes a refusal's number.
#![tactic(auto)]

ghost use Rattle.std.specs.Prelude.{◌≡◌};
ghost use Rattle.refusal.specs.Numbers.{number_of};
ghost use Rattle.refusal.specs.Answer.{refusal_for};

// The rows of document 01's table, "Numbered refusals", with those that document 02 adds, each by its number.
#[derive(Clone, Copy, Debug, PartialEq, Eq)]
pub enum Reason {
    // text or book length wrong
    WrongLength = 1,
    // byte, line length or last line end wrong
    WrongText = 2,
    // line 1
    WrongHeading = 3,
    // line 2
    WrongIdentifier = 4,
    // year, month, issue day, or purge has no minute
    WrongTime = 5,
    // block wrong
    WrongBlock = 6,
    // no segment
    NoSegment = 7,
    // no `$$`
    NoEnd = 8,
    // a ninth segment
    NinthSegment = 9,
    // storm identifier
    WrongStorm = 10,
    // over 120 places
    TooManyPlaces = 11,
    // book not sound
    NotSound = 12,
    // draft not 1..4 or not open
    NoDraft = 13,
    // four open
    AllOpen = 14,
    // no such segment
    NoSuchSegment = 15,
    // not taken
    NotTaken = 16,
    // taken already
    TakenAlready = 17,
    // two taken
    TwoTaken = 18,
    // adding an absent place to 120
    SegmentFull = 19,
    // removing the only place
    OnlyPlace = 20,
    // commit of a stale draft
    StaleDraft = 21,
    // no step to undo
    NoStep = 22,
    // output shorter than the block
    OutputShort = 23,
    // a place, DD, HH, MM or index handed in out of range
    OutOfRange = 24,
    // two elements of a block cover one place (document 02, R-3)
    PlaceTwice = 25,
    // the text does not belong to the book (document 02, R-1)
    NotBelonging = 27,
}

impl Reason {
    // Its number in the table.
    pub fn number(self) -> usize
        ensures { result ≡ number_of self }
    {
        self as usize
    }

    // The refusal for this reason at a place.
    pub fn at(self, place: usize) -> Refusal
        ensures { result ≡ refusal_for self place }
    {
        Refusal {
            reason: self,
            place,
        }
    }
}

// Why a call is refused, and the place of the fault, or 0.
#[derive(Clone, Copy, Debug, PartialEq, Eq)]
pub struct Refusal {
    pub reason: Reason,
    pub place: usize,
}

// Where a refusal has no place of its own, its place is 0.
impl From<Reason> for Refusal {
    ghost from_gives = { λ reason r. r ≡ refusal_for reason 0 };

    fn from(reason: Reason) -> Refusal {
        reason.at(0)
    }
}
