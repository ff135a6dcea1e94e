// What a restart does to a table: numbers 3 to 10 of every slot become zero.
// Relies on specs/Step.antt. Cited by the step.
ghost use Rattle.std.specs.Prelude.{◌≡◌, length};
ghost use Rattle.consensus.specs.Answers.{answer_by_rules};
ghost use Rattle.consensus.specs.Layout.{slots, table_size};
ghost use Rattle.consensus.specs.OnSlot.{restarted};
ghost use Rattle.consensus.specs.Step.{all_saved_kept, restart_slots, on_restart};

use super::kept::saved_kept;
use super::layout::{SLOTS, head_of, put_room, room_at};
use super::{Message, Refusal, Room, Round};
use ballots::Slot;

// Numbers 0 to 2 of every slot keep their rules. Every slot is asked, so that no branch stands between them: that is quicker than `all`, which stops at
// the first that doesn't.
#[tactic(auto, using(crate::proofs::Restarting::none_asked, crate::proofs::Restarting::one_more_asked))]
fn all_saved_kept(table: &[u64]) -> bool
    requires { length table.now ≡ table_size }
    ensures { result ≡ all_saved_kept slots table.now }
{
    let head = head_of(table);
    let mut kept = true;
    for s in 0..SLOTS {
        kept &= saved_kept(head, room_at(table, Slot(s)));
    }
    kept
}

// What a restart leaves of a slot.
fn restarted(room: Room) -> Room
    ensures { result ≡ restarted room }
{
    Room {
        round: Round::default(),
        agreed: 0,
        ..room
    }
}

// Every slot restarted. By slots and not by chunks of the table, since only layout.rt knows where a slot stands.
#[tactic(auto, using(crate::proofs::Restarting::none_restarted, crate::proofs::Restarting::one_more_restarted))]
fn restart_slots(table: &mut [u64])
    requires { length table.old ≡ table_size }
    ensures { table.new ≡ restart_slots slots table.old }
{
    for s in 0..SLOTS {
        let room = restarted(room_at(table, Slot(s)));
        put_room(table, Slot(s), room);
    }
}

// Restart: refused, with nothing written, where a slot's saved numbers break their rules.
#[tactic(auto, unfolding(crate::specs::Step::on_restart))]
pub fn on_restart(table: &mut [u64]) -> Result<Option<Message>, Refusal>
    requires { length table.old ≡ table_size }
    ensures answer { answer_by_rules result ≡ (on_restart table.old).answer }
    ensures table { table.new ≡ (on_restart table.old).table }
{
    if !all_saved_kept(table) {
        return Err(Refusal::NotWellKept);
    }
    restart_slots(table);
    Ok(None)
}
