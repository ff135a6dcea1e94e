// Last: a box counts a report, and begins once the counted are enough.
// Relies on specs/OnSlot.antt.
ghost use Rattle.std.specs.Prelude.{◌≡◌};
ghost use Rattle.consensus.specs.OnSlot.{outcome_by_rules, better, to_begin, collects_on, begins, on_last};

use super::Outcome;
use super::turn::{ALL_BOXES, Turn};
use crate::kept::enough_to_collect;
use crate::phase::Phase;
use crate::{Event, Kind, Refusal, Room, Round, Vote};
use ballots::Ballot;
use ballots::boxes::with_box;

// The best report: the event's where its second exceeds the best ballot.
fn better(room: Room, event: Event) -> Vote
    ensures { result ≡ better room event }
{
    let best = room.round.best;
    if best.ballot < event.second {
        Vote {
            ballot: event.second,
            value: event.value,
        }
    } else {
        best
    }
}

// The value to begin with: the best one, or the own where there is none.
fn to_begin(room: Room, best: Vote) -> u64
    ensures { result ≡ to_begin room best }
{
    if best.ballot == Ballot(0) {
        room.round.own.value
    } else {
        best.value
    }
}

// The sender counted: the round goes on collecting.
fn collects_on(room: Room, best: Vote, counted: u64) -> Room
    ensures { result ≡ collects_on room best counted }
{
    Room {
        round: Round {
            phase: Phase::Collecting.into(),
            best,
            lasts: counted,
            ..room.round
        },
        ..room
    }
}

// Enough were counted: the round begins with a value.
fn begins(turn: Turn, value: u64) -> Outcome
    ensures { outcome_by_rules result ≡ begins turn.head turn.room turn.event value }
{
    let ballot = turn.room.round.own.ballot;
    let round = Round {
        phase: Phase::Begun.into(),
        own: Vote { ballot, value },
        ..Round::default()
    };
    let answer = turn.send(ALL_BOXES, Kind::Begin, ballot, Ballot(0), value);
    Ok((Room { round, ..turn.room }, Some(answer)))
}

#[tactic(auto, unfolding(crate::specs::OnSlot::on_last))]
pub fn on_last(turn: Turn) -> Outcome
    ensures { outcome_by_rules result ≡ on_last turn.head turn.room turn.event }
{
    let Turn { room, event, .. } = turn;
    if !turn.awaited(Phase::Collecting, room.round.lasts) {
        return Err(Refusal::NotAwaited);
    }
    let counted = with_box(room.round.lasts, event.from);
    let best = better(room, event);
    if !enough_to_collect(turn.head, counted) {
        return Ok((collects_on(room, best, counted), None));
    }
    begins(turn, to_begin(room, best))
}
