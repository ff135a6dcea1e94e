// When a slot is well kept. Relies on specs/WellKept.antt, which has a definition for each function here, of the head and the room
// as here: a struct for the two would be one more name and no fact. Cited by the step, which refuses a slot that is not.
ghost use Rattle.std.specs.Prelude.{◌≡◌};
ghost use Rattle.ballots.specs.Ballot.{none_or_ballot};
ghost use Rattle.consensus.specs.Enough.{enough_to_collect, enough_to_begin};
ghost use Rattle.consensus.specs.WellKept.{zero_with, saved_kept, round_kept, idle_kept, running_kept, collecting_kept, begun_kept, phase_kept, well_kept, set_ok};

use super::phase::Phase;
use super::{Head, Room, Saved, Vote};
use ballots::boxes::is_majority;
use ballots::{Ballot, is_ballot, maker_of};

// Whether the boxes that sent Last are enough to close a Collect. This and the next are two functions, and not one with a parameter, since each is held
// to a definition of its own, of which theorems speak.
#[tactic(auto, unfolding(crate::specs::Enough::enough_to_collect))]
pub fn enough_to_collect(head: Head, set: u64) -> bool
    ensures { result ≡ enough_to_collect head set }
{
    is_majority(head.boxes, set)
}

// Whether the boxes that sent Accept are enough to close a Begin.
#[tactic(auto, unfolding(crate::specs::Enough::enough_to_begin))]
pub fn enough_to_begin(head: Head, set: u64) -> bool
    ensures { result ≡ enough_to_begin head set }
{
    is_majority(head.boxes, set)
}

// Zero or a ballot.
#[tactic(auto, unfolding(ballots::specs::Ballot::none_or_ballot))]
pub fn none_or_ballot(boxes: u64, b: Ballot) -> bool
    ensures { result ≡ none_or_ballot boxes b.0 }
{
    (b == Ballot(0)) | is_ballot(boxes, b)
}

// One number is zero exactly if the other is.
pub fn zero_with(a: u64, b: u64) -> bool
    ensures { result ≡ zero_with a b }
{
    (a == 0) == (b == 0)
}

// A set has no bit at N or above.
#[tactic(auto, using(crate::proofs::Sets::word_below))]
fn set_ok(head: Head, set: u64) -> bool
    ensures { result ≡ set_ok head set }
{
    if 64 <= head.boxes {
        return true;
    }
    set < (1u64 << head.boxes)
}

// Numbers 0 to 2 keep their rules.
#[tactic(auto, unfolding(crate::specs::WellKept::saved_kept))]
pub fn saved_kept(head: Head, room: Room) -> bool
    ensures { result ≡ saved_kept head room }
{
    let Saved { promised, accepted } = room.saved;
    none_or_ballot(head.boxes, promised)
        & none_or_ballot(head.boxes, accepted.ballot)
        & (accepted.ballot <= promised)
        & zero_with(accepted.value, accepted.ballot.0)
}

// Own and best ballot, the two sets and the phase are in range.
#[tactic(auto, unfolding(crate::specs::WellKept::round_kept))]
fn round_kept(head: Head, room: Room) -> bool
    ensures { result ≡ round_kept head room }
{
    let round = room.round;
    none_or_ballot(head.boxes, round.own.ballot)
        & none_or_ballot(head.boxes, round.best.ballot)
        & set_ok(head, round.lasts)
        & set_ok(head, round.accepts)
        & (round.phase <= u64::from(Phase::Begun))
}

// Idle: numbers 4 to 9 are zero.
#[tactic(auto, unfolding(crate::specs::WellKept::idle_kept))]
fn idle_kept(room: Room) -> bool
    ensures { result ≡ idle_kept room }
{
    let round = room.round;
    (round.own == Vote::default())
        & (round.best == Vote::default())
        & (round.lasts == 0)
        & (round.accepts == 0)
}

// Collecting or begun: a ballot of this box's own, a value, nothing agreed.
#[tactic(auto, unfolding(crate::specs::WellKept::running_kept))]
fn running_kept(head: Head, room: Room) -> bool
    ensures { result ≡ running_kept head room }
{
    let own = room.round.own;
    is_ballot(head.boxes, own.ballot)
        & (maker_of(own.ballot) == head.index)
        & (own.ballot <= room.saved.promised)
        & (own.value != 0)
        & (room.agreed == 0)
}

// Collecting: the best report is no higher than the own ballot, and the Lasts are not enough yet.
#[tactic(auto, unfolding(crate::specs::WellKept::collecting_kept))]
fn collecting_kept(head: Head, room: Room) -> bool
    ensures { result ≡ collecting_kept head room }
{
    let round = room.round;
    (round.best.ballot <= round.own.ballot)
        & zero_with(round.best.value, round.best.ballot.0)
        & (round.accepts == 0)
        & !enough_to_collect(head, round.lasts)
}

// Begun: nothing is left of the Collect, and the Accepts are not enough yet.
#[tactic(auto, unfolding(crate::specs::WellKept::begun_kept))]
fn begun_kept(head: Head, room: Room) -> bool
    ensures { result ≡ begun_kept head room }
{
    let round = room.round;
    (round.best == Vote::default()) & (round.lasts == 0) & !enough_to_begin(head, round.accepts)
}

// What a slot's phase asks of its numbers.
#[tactic(auto, unfolding(crate::specs::WellKept::phase_kept))]
fn phase_kept(head: Head, room: Room) -> bool
    ensures { result ≡ phase_kept head room }
{
    let phase = room.round.phase;
    if phase == u64::from(Phase::Idle) {
        return idle_kept(room);
    }
    if phase == u64::from(Phase::Collecting) {
        return running_kept(head, room) & collecting_kept(head, room);
    }
    running_kept(head, room) & begun_kept(head, room)
}

// A slot is well kept.
#[tactic(auto, unfolding(crate::specs::WellKept::well_kept))]
pub fn well_kept(head: Head, room: Room) -> bool
    ensures { result ≡ well_kept head room }
{
    saved_kept(head, room) & round_kept(head, room) & phase_kept(head, room)
}
