// An event and its six numbers; the kind of an event that keeps the rules: the fields that each kind uses, and each field's own rule.
// Relies on specs/Events.antt, which has a definition for each test here and `event_ok` for them all, and on specs/Answers.antt for an
// event's numbers.
// Cited by the step.
ghost use Rattle.std.specs.Prelude.{◌≡◌, eqb, if◌then◌else◌, true, false, MatchOption};
ghost use Rattle.consensus.specs.Answers.{event_numbers};
ghost use Rattle.consensus.specs.Events.{event_from, of_kind, kind_number, second_ok, value_ok, maker_ok, fields_ok, event_ok};

use super::kept::{none_or_ballot, zero_with};
use super::layout::SLOTS;
use super::{Event, Kind};
use ballots::{Ballot, Slot, is_ballot, maker_of};

// The event of its six numbers: kind, slot, from, ballot, second, value.
impl From<[u64; 6]> for Event {
    ghost from_gives = { λ numbers event. event ≡ event_from numbers };

    fn from(numbers: [u64; 6]) -> Event {
        let [kind, slot, from, ballot, second, value] = numbers;
        Event {
            kind,
            slot: Slot(slot),
            from,
            ballot: Ballot(ballot),
            second: Ballot(second),
            value,
        }
    }
}

// The six numbers of an event, in the same order.
impl From<Event> for [u64; 6] {
    ghost from_gives = { λ event numbers. numbers ≡ event_numbers event };

    fn from(event: Event) -> [u64; 6] {
        let Event {
            kind,
            slot,
            from,
            ballot,
            second,
            value,
        } = event;
        [kind, slot.0, from, ballot.0, second.0, value]
    }
}

// The fields used by each kind, from Propose to Restart: slot, from, ballot, second, value. Ones and zeros, as the rules print the table.
const USED: [[u8; 5]; 8] = [
    [1, 0, 0, 0, 1],
    [1, 1, 1, 0, 0],
    [1, 1, 1, 1, 1],
    [1, 1, 1, 0, 1],
    [1, 1, 1, 0, 0],
    [1, 1, 0, 0, 1],
    [1, 1, 1, 1, 0],
    [0, 0, 0, 0, 0],
];

// A field that holds x keeps its rule if its kind uses it, and is zero if not.
fn field_ok(used: u8, x: u64, rule: bool) -> bool
    ensures { result ≡ (if eqb used 1 then rule else eqb x 0) }
{
    if used == 1 { rule } else { x == 0 }
}

// In Last, second is zero or a ballot, at most ballot; in OldRound a ballot above ballot. Here and below, the event is taken for
// one of `kind`, whichever it is, so that no fact of the two is asked for.
#[tactic(auto, unfolding(crate::specs::Events::second_ok))]
fn second_ok(boxes: u64, kind: Kind, event: Event) -> bool
    ensures { result ≡ second_ok boxes (of_kind kind event) }
{
    match kind {
        Kind::Last => none_or_ballot(boxes, event.second) & (event.second <= event.ballot),
        _ => is_ballot(boxes, event.second) & (event.ballot < event.second),
    }
}

// A value is not zero; in Last it is zero exactly if second is.
#[tactic(auto, unfolding(crate::specs::Events::value_ok))]
fn value_ok(kind: Kind, event: Event) -> bool
    ensures { result ≡ value_ok (of_kind kind event) }
{
    match kind {
        Kind::Last => zero_with(event.value, event.second.0),
        _ => event.value != 0,
    }
}

// In Collect and Begin, from made the ballot.
#[tactic(auto, unfolding(crate::specs::Events::maker_ok))]
fn maker_ok(kind: Kind, event: Event) -> bool
    ensures { result ≡ maker_ok (of_kind kind event) }
{
    match kind {
        Kind::Collect | Kind::Begin => maker_of(event.ballot) == event.from,
        _ => true,
    }
}

// The fields of an event of this kind keep their rules.
#[tactic(auto, unfolding(crate::specs::Events::fields_ok, crate::specs::Events::field_ok))]
fn fields_ok(boxes: u64, kind: Kind, event: Event) -> bool
    ensures { result ≡ fields_ok boxes (of_kind kind event) }
{
    let [slot, from, ballot, second, value] = USED[kind as usize - 1];
    field_ok(slot, event.slot.0, event.slot < Slot(SLOTS))
        & field_ok(from, event.from, event.from < boxes)
        & field_ok(ballot, event.ballot.0, is_ballot(boxes, event.ballot))
        & field_ok(second, event.second.0, second_ok(boxes, kind, event))
        & field_ok(value, event.value, value_ok(kind, event))
}

// The kind of an event that keeps the rules for this many boxes; None for an event that breaks them.
#[tactic(auto, unfolding(crate::specs::Events::event_ok, crate::specs::Events::kind_ok))]
pub fn kind_of(boxes: u64, event: Event) -> Option<Kind>
    ensures { MatchOption result (event_ok boxes event ≡ false)
        (λ kind. (event_ok boxes event ≡ true) × (kind_number kind ≡ event.kind)) }
{
    let kind = Kind::try_from(event.kind).ok()?;
    if fields_ok(boxes, kind, event) & maker_ok(kind, event) {
        Some(kind)
    } else {
        None
    }
}
