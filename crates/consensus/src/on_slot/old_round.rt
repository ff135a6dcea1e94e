// OldRound: a box drops its round and raises its promise.
// Relies on specs/OnSlot.antt.
ghost use Rattle.std.specs.Prelude.{◌≡◌};
ghost use Rattle.consensus.specs.OnSlot.{outcome_by_rules, on_old_round};

use super::Outcome;
use super::turn::Turn;
use crate::phase::Phase;
use crate::{Refusal, Room, Round, Saved};

#[tactic(auto, unfolding(crate::specs::OnSlot::on_old_round))]
pub fn on_old_round(turn: Turn) -> Outcome
    ensures { outcome_by_rules result ≡ on_old_round turn.head turn.room turn.event }
{
    let Turn { room, event, .. } = turn;
    if (room.round.phase == u64::from(Phase::Idle)) | (room.round.own.ballot != event.ballot) {
        return Err(Refusal::NotAwaited);
    }
    let saved = Saved {
        promised: room.saved.promised.max(event.second),
        ..room.saved
    };
    let next = Room {
        saved,
        round: Round::default(),
        ..room
    };
    Ok((next, None))
}
