// Success: a box learns the agreed value.
// Relies on specs/OnSlot.antt.
ghost use Rattle.std.specs.Prelude.{◌≡◌};
ghost use Rattle.consensus.specs.OnSlot.{outcome_by_rules, on_success};

use super::Outcome;
use super::turn::Turn;
use crate::{Refusal, Room, Round};

#[tactic(auto, unfolding(crate::specs::OnSlot::on_success))]
pub fn on_success(turn: Turn) -> Outcome
    ensures { outcome_by_rules result ≡ on_success turn.head turn.room turn.event }
{
    let Turn { room, event, .. } = turn;
    if room.agreed == 0 {
        let next = Room {
            round: Round::default(),
            agreed: event.value,
            ..room
        };
        return Ok((next, None));
    }
    if room.agreed == event.value {
        return Err(Refusal::NotAwaited);
    }
    Err(Refusal::OtherAgreed)
}
