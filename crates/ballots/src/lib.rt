// Ballots and slots: what is a ballot for N boxes, its two parts, and the next ballot of a box. The sets of boxes are in `boxes`.
// Relies on specs/Ballot.antt, which says what each function gives. Every crate above cites it.
#![tactic(auto)]

ghost use Rattle.std.specs.Prelude.{◌≡◌};
ghost use Rattle.ballots.specs.Ballot.{x_of, maker_of, is_ballot, next};

pub mod boxes;

// At most seven boxes, so an index is below 7.
pub const MAX_BOXES: u64 = 7;
// The largest x of a ballot 8x + i.
const MAX_X: u64 = 4294967295;

// A ballot number. A tuple struct of its own, so that no slot number passes for one.
#[derive(Clone, Copy, Debug, Default, PartialEq, Eq, PartialOrd, Ord, Hash)]
pub struct Ballot(pub u64);

// A slot number.
#[derive(Clone, Copy, Debug, Default, PartialEq, Eq, PartialOrd, Ord, Hash)]
pub struct Slot(pub u64);

// The x of a ballot 8x + i.
pub fn x_of(b: Ballot) -> u64
    ensures { result ≡ x_of b.0 }
{
    b.0 / 8
}

// The index of the box that made a ballot.
pub fn maker_of(b: Ballot) -> u64
    ensures { result ≡ maker_of b.0 }
{
    b.0 % 8
}

// Whether `b` is a ballot for this many boxes.
#[tactic(auto, unfolding(crate::specs::Ballot::is_ballot))]
pub fn is_ballot(boxes: u64, b: Ballot) -> bool
    ensures { result ≡ is_ballot boxes b.0 }
{
    let x = x_of(b);
    (1 <= x) & (x <= MAX_X) & (maker_of(b) < boxes)
}

// The ballot that the box of this index makes next, above every ballot up to `promised`: none where no x is left, or where
// the index is no box's.
#[tactic(auto, using(crate::specs::BallotLaws::next_made, crate::specs::BallotLaws::next_no_box, crate::specs::BallotLaws::next_no_x))]
pub fn next_ballot(promised: Ballot, index: u64) -> Option<Ballot>
    ensures { result ≡ next promised.0 index }
{
    if MAX_BOXES <= index {
        return None;
    }
    let x = x_of(promised) + 1;
    if MAX_X < x {
        return None;
    }
    Some(Ballot(8 * x + index))
}
