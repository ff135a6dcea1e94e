// Propose: a box opens a round of its own.
// Relies on specs/OnSlot.antt.
ghost use Rattle.std.specs.Prelude.{◌≡◌};
ghost use Rattle.consensus.specs.OnSlot.{outcome_by_rules, on_propose};

use super::Outcome;
use super::turn::{ALL_BOXES, Turn};
use crate::phase::Phase;
use crate::{Kind, Refusal, Room, Round, Saved, Vote};
use ballots::{Ballot, next_ballot};

#[tactic(auto, using(crate::proofs::Proposing::agreed_already, crate::proofs::Proposing::no_ballot_left, crate::proofs::Proposing::opens_a_round))]
pub fn on_propose(turn: Turn) -> Outcome
    ensures { outcome_by_rules result ≡ on_propose turn.head turn.room turn.event }
{
    let Turn { room, event, .. } = turn;
    if room.agreed != 0 {
        return Err(Refusal::AlreadyAgreed);
    }
    let ballot = next_ballot(room.saved.promised, turn.head.index).ok_or(Refusal::NoBallotLeft)?;
    let next = Room {
        saved: Saved {
            promised: ballot,
            ..room.saved
        },
        round: Round {
            phase: Phase::Collecting.into(),
            own: Vote {
                ballot,
                value: event.value,
            },
            ..Round::default()
        },
        agreed: room.agreed,
    };
    let answer = turn.send(ALL_BOXES, Kind::Collect, ballot, Ballot(0), 0);
    Ok((next, Some(answer)))
}
