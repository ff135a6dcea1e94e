// What each kind of event does to its slot: a module for each bullet of the rules' step.
// Relies on specs/OnSlot.antt, which has a definition for each function. Cited by the step.
ghost use Rattle.std.specs.Prelude.{◌≡◌};
ghost use Rattle.consensus.specs.OnSlot.{outcome_by_rules, on_slot};

use super::{Kind, Message, Refusal, Room};
use accept::on_accept;
use begin::on_begin;
use collect::on_collect;
use last::on_last;
use old_round::on_old_round;
use propose::on_propose;
use success::on_success;
use turn::Turn;

mod accept;
mod begin;
mod collect;
mod last;
mod old_round;
mod propose;
mod success;
pub mod turn;

// What an event does to its slot: new numbers and at most one message, or a refusal that leaves all as it was.
pub type Outcome = Result<(Room, Option<Message>), Refusal>;

// An event of any kind that names a slot. One match, plainer here than closures or a table of functions: the kinds are a closed enum.
#[tactic(auto, unfolding(crate::specs::OnSlot::on_slot))]
pub fn on_slot(turn: Turn) -> Outcome
    ensures { outcome_by_rules result ≡ on_slot turn.head turn.room turn.event }
{
    match turn.kind {
        Kind::Propose => on_propose(turn),
        Kind::Collect => on_collect(turn),
        Kind::Last => on_last(turn),
        Kind::Begin => on_begin(turn),
        Kind::Accept => on_accept(turn),
        Kind::Success => on_success(turn),
        // The definition's last `else`. Restart, which names no slot, does not come here.
        Kind::OldRound | Kind::Restart => on_old_round(turn),
    }
}
