// The step of a box: a lent table and one event give the new table and an answer with at most one message.
// Relies on specs/, which says what each type and each answer means; a ballot and a slot are types of their own.
#![tactic(auto)]

ghost use Rattle.std.specs.Prelude.{◌≡◌, ◌<◌, ◌≤◌, length};
ghost use Rattle.ballots.specs.Ballot.{max_boxes};
ghost use Rattle.consensus.specs.Answers.{answer_by_rules};
ghost use Rattle.consensus.specs.Events.{kind_number};
ghost use Rattle.consensus.specs.Layout.{slots, table_size, head_of};
ghost use Rattle.consensus.specs.Step.{table_ok, agreed_at, on_event, step};

use ballots::{Ballot, MAX_BOXES, Slot};
use events::kind_of;
use kept::well_kept;
use layout::{head_of, put_room, room_at};
use on_slot::on_slot;
use on_slot::turn::Turn;
use restart::on_restart;

mod events; // events.rt: when an event keeps the rules, and its kind
mod kept; // kept.rt: when a slot is well kept
mod kind; // kind.rt: the kinds of events
mod layout; // layout.rt: where each number of a table stands
mod on_slot; // on_slot.rt: what each kind of event does to its slot
mod phase; // phase.rt: the phases of a round
mod refusal; // refusal.rt: why a step is refused
mod restart; // restart.rt: what a restart does to a table

pub use kind::{Kind, UnknownKind};
pub use layout::{SLOTS, TABLE_SIZE};
pub use refusal::Refusal;

// Numbers 0 and 1 of a table: the box count N and the box's own index.
#[derive(Clone, Copy, Debug, PartialEq, Eq, Hash)]
pub struct Head {
    pub boxes: u64,
    pub index: u64,
}

// A ballot and the value that goes with it: both zero where there is none, as the rules have it.
#[derive(Clone, Copy, Debug, Default, PartialEq, Eq, Hash)]
pub struct Vote {
    pub ballot: Ballot,
    pub value: u64,
}

// Numbers 0 to 2 of a slot, which a restart keeps.
#[derive(Clone, Copy, Debug, PartialEq, Eq, Hash)]
pub struct Saved {
    pub promised: Ballot,
    pub accepted: Vote,
}

// Numbers 3 to 9 of a slot: the round that this box runs.
#[derive(Clone, Copy, Debug, Default, PartialEq, Eq, Hash)]
pub struct Round {
    // any number may stand in a table: only a well kept slot's is a phase's
    pub phase: u64,
    pub own: Vote,
    pub best: Vote,
    pub lasts: u64,
    pub accepts: u64,
}

// The eleven numbers of a slot.
#[derive(Clone, Copy, Debug, PartialEq, Eq, Hash)]
pub struct Room {
    pub saved: Saved,
    pub round: Round,
    pub agreed: u64,
}

// The six numbers of an event, and of a message on its way. Any number may come in as the kind: `Kind::try_from` sorts out which are a kind's.
#[derive(Clone, Copy, Debug, PartialEq, Eq, Hash)]
pub struct Event {
    pub kind: u64,
    pub slot: Slot,
    pub from: u64,
    pub ballot: Ballot,
    pub second: Ballot,
    pub value: u64,
}

// A message out: a destination and six numbers.
#[derive(Clone, Copy, Debug, PartialEq, Eq, Hash)]
pub struct Message {
    // an index, or 7 for all boxes: a number, as the rules have it
    pub to: u64,
    pub event: Event,
}

// A table of the right length, with a box count from 1 to 7 and an index below it.
#[tactic(auto, unfolding(crate::specs::Step::table_ok))]
pub fn table_ok(table: &[u64]) -> bool
    ensures { result ≡ table_ok table.now }
{
    if table.len() != TABLE_SIZE {
        return false;
    }
    let head = head_of(table);
    (1 <= head.boxes) & (head.boxes <= MAX_BOXES) & (head.index < head.boxes)
}

// What a slot has agreed: zero for nothing, and where the table is bad or has no such slot. Zero and no Option, since the definition `agreed_at`,
// under the board's theorems, has the rules' "zero means none".
#[tactic(auto, using(crate::specs::StepLaws::table_clauses), unfolding(crate::specs::Step::agreed_at))]
pub fn agreed_at(table: &[u64], slot: Slot) -> u64
    ensures { result ≡ agreed_at table.now slot.0 }
{
    if !table_ok(table) {
        return 0;
    }
    if Slot(SLOTS) <= slot {
        return 0;
    }
    room_at(table, slot).agreed
}

// An event that names a slot: refused, with nothing written, where the slot is not well kept or the event is not for it.
#[tactic(auto, unfolding(crate::specs::Step::on_event))]
fn on_event(table: &mut [u64], kind: Kind, event: Event) -> Result<Option<Message>, Refusal>
    requires table { (length table.old ≡ table_size) × (event.slot.0 < slots) × ((head_of table.old).index < max_boxes) }
    requires kind { kind_number kind ≡ event.kind }
    ensures answer { answer_by_rules result ≡ (on_event table.old event).answer }
    ensures table { table.new ≡ (on_event table.old event).table }
{
    let head = head_of(table);
    let room = room_at(table, event.slot);
    if !well_kept(head, room) {
        return Err(Refusal::NotWellKept);
    }
    let (next, message) = on_slot(Turn {
        head,
        room,
        kind,
        event,
    })?;
    put_room(table, event.slot, next);
    Ok(message)
}

// One event on a lent table: the new table and at most one message, or a refusal that leaves the table as it was.
#[tactic(auto, using(crate::specs::StepLaws::table_clauses, crate::specs::StepLaws::names_a_slot), unfolding(crate::specs::Step::step))]
pub fn step(table: &mut [u64], event: Event) -> Result<Option<Message>, Refusal>
    ensures answer { answer_by_rules result ≡ (step table.old event).answer }
    ensures table { table.new ≡ (step table.old event).table }
{
    if !table_ok(table) {
        return Err(Refusal::BadTable);
    }
    let kind = kind_of(head_of(table).boxes, event).ok_or(Refusal::BadEvent)?;
    match kind {
        Kind::Restart => on_restart(table),
        _ => on_event(table, kind, event),
    }
}
