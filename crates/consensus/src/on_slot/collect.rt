// Collect: a box promises a ballot and reports what it has accepted.
// Relies on specs/OnSlot.antt.
ghost use Rattle.std.specs.Prelude.{◌≡◌};
ghost use Rattle.consensus.specs.OnSlot.{outcome_by_rules, on_collect};

use super::Outcome;
use super::turn::Turn;
use crate::{Kind, Room, Saved};

#[tactic(auto, unfolding(crate::specs::OnSlot::on_collect))]
pub fn on_collect(turn: Turn) -> Outcome
    ensures { outcome_by_rules result ≡ on_collect turn.head turn.room turn.event }
{
    let Turn { room, event, .. } = turn;
    if event.ballot < room.saved.promised {
        return turn.too_old();
    }
    let accepted = room.saved.accepted;
    let saved = Saved {
        promised: event.ballot,
        accepted,
    };
    let answer = turn.send(
        event.from,
        Kind::Last,
        event.ballot,
        accepted.ballot,
        accepted.value,
    );
    Ok((Room { saved, ..room }, Some(answer)))
}
