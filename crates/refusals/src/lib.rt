// What is refused: one case for each row of 01's table of refusal numbers, and of the requests after it.
//
// A refusal returns its number, with the place of what offends in its list where the number has one
// (Req 04), and every lent buffer keeps its contents. The rules of the other crates' specs/ speak of
// numbers, as 01 does (`Paper`); the code speaks of these cases, and this is the one place that turns
// a case into its number. 9 is given out no more.
#![tactic(auto)]

ghost use Rattle.std.specs.Prelude.{◌≡◌};
ghost use Rattle.refusals.specs.Number.{number_of, refused_of, refused_at};

#[derive(Clone, Copy)]
pub enum Refusal {
    // 1: a spec value outside the rules
    SpecOutside,
    // 2: the number of cells is 0, infinite, over max_cells or over 16,384
    CellCount,
    // 3: the lent cells are not n, or one does not fit
    CellsDoNotFit,
    // 4: a stored ring is wrong, two overlap, or there are more than the room
    StoredRings,
    // 5: an argument of a cut or a root outside its domain, or over 4,096 segments or 64 points
    ArgumentOutside,
    // 6: more changes than lent records
    ChangesOverRoom,
    // 7: the change indices do not strictly rise
    IndicesDoNotRise,
    // 8: an after-cell does not fit
    AfterDoesNotFit,
    // 10: a ring is not finite, or in a move or parts empty
    RingOutside,
    // 11: over 256 pieces in hand, or over the store's room
    RingsOverRoom,
    // 12: the generation would pass 2^64 - 1
    GenerationsSpent,
    // 13: an arc
    Arc,
    // 14: envelope points or a query outside the domain, or over 1,024 points
    EnvelopeOutside,
    // 15: a malformed job line
    LineMalformed,
    // 16: a line of a stock file that is not of its form, or is missing
    FileMalformed,
    // 17: points of a profile or a tolerance outside the domain, or over 256 points
    ProfileOutside,
    // 18: ten halvings do not reach the tolerance, or more chords than the lent room
    ChordsOutgrow,
    // 19: a change list whose edition or generation is not the stock's
    ListStale,
    // 20: lent block numbers do not match the cells
    BlocksDoNotMatch,
    // 21: there is no such bin
    NoSuchBin,
    // 22: the bin holds something else
    BinHoldsOther,
    // 23: the change adds material
    MaterialAdded,
    // 24: two stocks whose specs are not the same
    SpecsDiffer,
    // 25: an inside cut among passes, over 128 of them, or targets outside the domain
    PassesOutside,
}

// Why a call is refused: the case, and the place of what offends in its list, where the number has one.
#[derive(Clone, Copy)]
pub struct Refused {
    pub why: Refusal,
    pub place: Option<usize>,
}

impl Refused {
    // A case at a place of its list.
    pub fn at(why: Refusal, place: usize) -> Refused
        ensures { result ≡ refused_at why place }
    {
        Refused {
            why,
            place: Some(place),
        }
    }
}

// A case of no place.
impl From<Refusal> for Refused {
    ghost from_gives = { λ r e. e ≡ refused_of r };

    fn from(why: Refusal) -> Refused {
        Refused { why, place: None }
    }
}

// 01's number of a refusal.
pub fn number(r: Refusal) -> u32
    ensures { result ≡ number_of r }
{
    match r {
        Refusal::SpecOutside => 1,
        Refusal::CellCount => 2,
        Refusal::CellsDoNotFit => 3,
        Refusal::StoredRings => 4,
        Refusal::ArgumentOutside => 5,
        Refusal::ChangesOverRoom => 6,
        Refusal::IndicesDoNotRise => 7,
        Refusal::AfterDoesNotFit => 8,
        Refusal::RingOutside => 10,
        Refusal::RingsOverRoom => 11,
        Refusal::GenerationsSpent => 12,
        Refusal::Arc => 13,
        Refusal::EnvelopeOutside => 14,
        Refusal::LineMalformed => 15,
        Refusal::FileMalformed => 16,
        Refusal::ProfileOutside => 17,
        Refusal::ChordsOutgrow => 18,
        Refusal::ListStale => 19,
        Refusal::BlocksDoNotMatch => 20,
        Refusal::NoSuchBin => 21,
        Refusal::BinHoldsOther => 22,
        Refusal::MaterialAdded => 23,
        Refusal::SpecsDiffer => 24,
        Refusal::PassesOutside => 25,
    }
}

// The limits of 01, and of Req 07 and Req 14 of 02, at which a refusal begins.
pub const CELL_LIMIT: usize = 16384;

pub const SEGMENT_LIMIT: usize = 4096;

pub const POINT_LIMIT: usize = 64;

pub const ENVELOPE_LIMIT: usize = 1024;

pub const PROFILE_LIMIT: usize = 256;

pub const RING_LIMIT: usize = 256;

pub const PIECE_LIMIT: usize = 256;

// Bins a block, of Req 09: the bins that one pair of kept numbers stands for.
pub const BLOCK: usize = 64;

pub const LAST_GENERATION: u64 = 0xffff_ffff_ffff_ffff;

// The last place that a list can have.
pub const LAST_PLACE: usize = 0xffff_ffff_ffff_ffff;
