// A turn: an event at a slot of a box, and the messages that it can give.
// Relies on specs/OnSlot.antt. Cited by each kind of event.
ghost use Rattle.std.specs.Prelude.{◌≡◌, ◌<◌};
ghost use Rattle.ballots.specs.Ballot.{max_boxes};
ghost use Rattle.consensus.specs.Answers.{Sends};
ghost use Rattle.consensus.specs.Events.{kind_number};
ghost use Rattle.consensus.specs.Room.{phase_number};
ghost use Rattle.consensus.specs.OnSlot.{outcome_by_rules, awaited, send, too_old};

use super::Outcome;
use crate::phase::Phase;
use crate::{Event, Head, Kind, Message, Room};
use ballots::Ballot;
use ballots::boxes::holds;

// The destination that means all boxes, the sender included.
pub const ALL_BOXES: u64 = 7;

// The box's head, its slot's room, and the event that comes to it, with its kind.
#[derive(Clone, Copy, Debug, PartialEq, Eq, Hash)]
pub struct Turn {
    pub head: Head,
    pub room: Room,
    pub kind: Kind,
    pub event: Event,
    ghost index_below: { head.index < max_boxes },
    ghost kind_is: { kind_number kind ≡ event.kind },
}

impl Turn {
    // Whether the event is a reply that the slot's round waits for: the round is in this phase, the ballot is its own,
    // and the sender is not in the counted set yet.
    pub fn awaited(self, phase: Phase, counted: u64) -> bool
        ensures { result ≡ awaited self.room self.event (phase_number phase) counted }
    {
        (self.room.round.phase == u64::from(phase))
            & (self.room.round.own.ballot == self.event.ballot)
            & !holds(counted, self.event.from)
    }

    // A message about the event's slot from this box.
    pub fn send(self, to: u64, kind: Kind, ballot: Ballot, second: Ballot, value: u64) -> Message
        ensures { Sends result ≡ send self.head self.event to (kind_number kind) ballot.0 second.0 value }
    {
        Message {
            to,
            event: Event {
                kind: u64::from(kind),
                slot: self.event.slot,
                from: self.head.index,
                ballot,
                second,
                value,
            },
        }
    }

    // The ballot is below the promise: OldRound to the sender, and nothing changes.
    pub fn too_old(self) -> Outcome
        ensures { outcome_by_rules result ≡ too_old self.head self.room self.event }
    {
        let promised = self.room.saved.promised;
        let answer = self.send(
            self.event.from,
            Kind::OldRound,
            self.event.ballot,
            promised,
            0,
        );
        Ok((self.room, Some(answer)))
    }
}
