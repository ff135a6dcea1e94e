// Sets of boxes as numbers: bit k stands for box k. Counting, majorities, membership, and one box more.
// Relies on specs/Boxes.antt, which says what each function gives. Cited by whoever keeps such a set.
ghost use Rattle.std.specs.Prelude.{◌≡◌};
ghost use Rattle.std.specs.Int.Count.{ones};
ghost use Rattle.ballots.specs.Boxes.{holds_box, is_majority, with_box};

// How many boxes a set has.
pub fn count(set: u64) -> u64
    ensures { result ≡ ones set }
{
    u64::from(set.count_ones())
}

// Whether a set is a majority of this many boxes: its count, doubled, exceeds their number.
#[tactic(auto, unfolding(crate::specs::Boxes::is_majority))]
pub fn is_majority(boxes: u64, set: u64) -> bool
    ensures { result ≡ is_majority boxes set }
{
    boxes < 2 * count(set)
}

// Whether a set has box `k`.
#[tactic(auto, using(crate::proofs::Words::no_far_box), unfolding(crate::specs::Boxes::holds_box))]
pub fn holds(set: u64, k: u64) -> bool
    ensures { result ≡ holds_box set k }
{
    if 64 <= k {
        return false;
    }
    (set >> k) % 2 == 1
}

// The set with box `k`.
#[tactic(auto, using(crate::specs::BoxesLaws::with_box_of_held, crate::specs::BoxesLaws::with_box_of_far, crate::specs::BoxesLaws::with_box_of_new, crate::proofs::Words::one_shifted, crate::proofs::Words::room_for_box))]
pub fn with_box(set: u64, k: u64) -> u64
    ensures { result ≡ with_box set k }
{
    if 64 <= k {
        return set;
    }
    if holds(set, k) {
        return set;
    }
    set + (1u64 << k)
}
