// Accept: a box counts a vote, and agrees once the counted are enough.
// Relies on specs/OnSlot.antt.
ghost use Rattle.std.specs.Prelude.{◌≡◌};
ghost use Rattle.consensus.specs.OnSlot.{outcome_by_rules, begun_on, agrees, on_accept};

use super::Outcome;
use super::turn::{ALL_BOXES, Turn};
use crate::kept::enough_to_begin;
use crate::phase::Phase;
use crate::{Kind, Refusal, Room, Round};
use ballots::Ballot;
use ballots::boxes::with_box;

// The sender counted: the round goes on.
fn begun_on(room: Room, counted: u64) -> Room
    ensures { result ≡ begun_on room counted }
{
    Room {
        round: Round {
            phase: Phase::Begun.into(),
            accepts: counted,
            ..room.round
        },
        ..room
    }
}

// Enough were counted: the own value is agreed.
fn agrees(turn: Turn) -> Outcome
    ensures { outcome_by_rules result ≡ agrees turn.head turn.room turn.event }
{
    let value = turn.room.round.own.value;
    let next = Room {
        round: Round::default(),
        agreed: value,
        ..turn.room
    };
    let answer = turn.send(ALL_BOXES, Kind::Success, Ballot(0), Ballot(0), value);
    Ok((next, Some(answer)))
}

#[tactic(auto, unfolding(crate::specs::OnSlot::on_accept))]
pub fn on_accept(turn: Turn) -> Outcome
    ensures { outcome_by_rules result ≡ on_accept turn.head turn.room turn.event }
{
    let Turn { room, event, .. } = turn;
    if !turn.awaited(Phase::Begun, room.round.accepts) {
        return Err(Refusal::NotAwaited);
    }
    let counted = with_box(room.round.accepts, event.from);
    if !enough_to_begin(turn.head, counted) {
        return Ok((begun_on(room, counted), None));
    }
    agrees(turn)
}
