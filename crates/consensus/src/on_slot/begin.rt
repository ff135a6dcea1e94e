// Begin: a box accepts a ballot's value.
// Relies on specs/OnSlot.antt.
ghost use Rattle.std.specs.Prelude.{◌≡◌};
ghost use Rattle.consensus.specs.OnSlot.{outcome_by_rules, on_begin};

use super::Outcome;
use super::turn::Turn;
use crate::{Kind, Room, Saved, Vote};
use ballots::Ballot;

#[tactic(auto, unfolding(crate::specs::OnSlot::on_begin))]
pub fn on_begin(turn: Turn) -> Outcome
    ensures { outcome_by_rules result ≡ on_begin turn.head turn.room turn.event }
{
    let Turn { room, event, .. } = turn;
    if event.ballot < room.saved.promised {
        return turn.too_old();
    }
    let saved = Saved {
        promised: event.ballot,
        accepted: Vote {
            ballot: event.ballot,
            value: event.value,
        },
    };
    let answer = turn.send(event.from, Kind::Accept, event.ballot, Ballot(0), 0);
    Ok((Room { saved, ..room }, Some(answer)))
}
