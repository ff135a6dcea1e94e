// Where each number of a table stands. Nothing but this file knows 2, 11, 64 or 706; only a fresh table's numbers 0 and 1 are written elsewhere, in `calls`.
// Relies on specs/Layout.antt. Cited by the event check, the restart and the step. The rules ask for a lent slice, read and written at
// stated places: so its length is a clause and no array's type, and a number is `table[at + k]` and no part of an array copied out or in.
// Any slot number may be asked for, so its bound is a clause too, here and in the restart and the step.
ghost use Rattle.std.specs.Prelude.{◌≡◌, ◌<◌, ◌≤◌, length};
ghost use Rattle.consensus.specs.Layout.{head_size, slots, table_size, head_of, room_start, room_at, with_room};

use super::{Head, Room, Round, Saved, Vote};
use ballots::{Ballot, Slot};

const HEAD_SIZE: usize = 2;

const ROOM_SIZE: usize = 11;

pub const SLOTS: u64 = 64;

// 706 numbers: the head, and a room for each slot.
pub const TABLE_SIZE: usize = HEAD_SIZE + SLOTS as usize * ROOM_SIZE;

// The box count and the box's own index.
pub fn head_of(table: &[u64]) -> Head
    requires { head_size ≤ length table.now }
    ensures { result ≡ head_of table.now }
{
    Head {
        boxes: table[0],
        index: table[1],
    }
}

// Where the numbers of a slot begin.
fn room_start(slot: Slot) -> usize
    requires { slot.0 < slots }
    ensures { result ≡ room_start slot.0 }
{
    HEAD_SIZE + slot.0 as usize * ROOM_SIZE
}

// The eleven numbers of a slot.
pub fn room_at(table: &[u64], slot: Slot) -> Room
    requires { (length table.now ≡ table_size) × (slot.0 < slots) }
    ensures { result ≡ room_at table.now slot.0 }
{
    let at = room_start(slot);
    Room {
        saved: Saved {
            promised: Ballot(table[at + 0]),
            accepted: Vote {
                ballot: Ballot(table[at + 1]),
                value: table[at + 2],
            },
        },
        round: Round {
            phase: table[at + 3],
            own: Vote {
                ballot: Ballot(table[at + 4]),
                value: table[at + 5],
            },
            best: Vote {
                ballot: Ballot(table[at + 6]),
                value: table[at + 7],
            },
            lasts: table[at + 8],
            accepts: table[at + 9],
        },
        agreed: table[at + 10],
    }
}

// Writes the eleven numbers of a slot, and nothing else.
pub fn put_room(table: &mut [u64], slot: Slot, room: Room)
    requires { (length table.old ≡ table_size) × (slot.0 < slots) }
    ensures { table.new ≡ with_room table.old slot.0 room }
{
    let at = room_start(slot);
    table[at + 0] = room.saved.promised.0;
    table[at + 1] = room.saved.accepted.ballot.0;
    table[at + 2] = room.saved.accepted.value;
    table[at + 3] = room.round.phase;
    table[at + 4] = room.round.own.ballot.0;
    table[at + 5] = room.round.own.value;
    table[at + 6] = room.round.best.ballot.0;
    table[at + 7] = room.round.best.value;
    table[at + 8] = room.round.lasts;
    table[at + 9] = room.round.accepts;
    table[at + 10] = room.agreed;
}
