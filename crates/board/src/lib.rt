// The board: for a link, its owner, its revision and its map ticket, as the agreed commands of a box's table have made them.
// Relies on specs/, and of the box below on the contracts of `table_ok` and `agreed_at` alone.
#![tactic(auto)]

ghost use Rattle.std.specs.Prelude.{◌≡◌};
ghost use Rattle.board.specs.Command.{command_of};
ghost use Rattle.board.specs.Board.{claimed, revised, applied, known_prefix, entry_of, board_of, numbers_of, answer_by_rules};

mod refusal; // refusal.rt: why the board says nothing of a link

use ballots::Slot;
use consensus::{SLOTS, agreed_at, table_ok};
pub use refusal::BoardRefusal;

// Where the author, the link and the revision of a value start, and how far a link and a revision go.
const AUTHOR_UNIT: u64 = 1 << 48;

const LINK_UNIT: u64 = 1 << 40;

const REVISION_UNIT: u64 = 1 << 32;

const EIGHT_BITS: u64 = 1 << 8;

const LAST_LINK: u64 = 255;

const LAST_REVISION: u64 = 255;

// The four parts of a value.
#[derive(Clone, Copy, Debug, Default, PartialEq, Eq, Hash)]
pub struct Command {
    pub author: u64,
    pub link: u64,
    pub revision: u64,
    pub ticket: u64,
}

// What the board says of a link; three zeros, the default, when it is free, as the rules have it.
#[derive(Clone, Copy, Debug, Default, PartialEq, Eq, Hash)]
pub struct Entry {
    pub owner: u64,
    pub revision: u64,
    pub ticket: u64,
}

// The command that a value is. A public function, and so it stays; a `From<u64>` beside it would be a second name for it.
pub fn command_of(value: u64) -> Command
    ensures { result ≡ command_of value }
{
    Command {
        author: value / AUTHOR_UNIT,
        link: value / LINK_UNIT % EIGHT_BITS,
        revision: value / REVISION_UNIT % EIGHT_BITS,
        ticket: value % REVISION_UNIT,
    }
}

// A free link: revision 0 makes the author its owner.
#[tactic(auto, unfolding(crate::specs::Board::claimed))]
fn claimed(entry: Entry, command: Command) -> Entry
    ensures { result ≡ claimed entry command }
{
    if command.revision != 0 {
        return entry;
    }
    Entry {
        owner: command.author,
        revision: 1,
        ticket: command.ticket,
    }
}

// An owned link: the owner, naming its present revision, sets the ticket.
#[tactic(auto, unfolding(crate::specs::Board::revised))]
fn revised(entry: Entry, command: Command) -> Entry
    ensures { result ≡ revised entry command }
{
    if command.author != entry.owner
        || command.revision != entry.revision
        || LAST_REVISION <= entry.revision
    {
        return entry;
    }
    Entry {
        revision: entry.revision + 1,
        ticket: command.ticket,
        ..entry
    }
}

// What one command does to the entry of one link.
#[tactic(auto, unfolding(crate::specs::Board::obeyed))]
pub fn applied(entry: Entry, link: u64, value: u64) -> Entry
    ensures { result ≡ applied entry link value }
{
    let command = command_of(value);
    if command.link != link || command.author == 0 {
        return entry;
    }
    if entry.owner == 0 {
        return claimed(entry, command);
    }
    revised(entry, command)
}

// The entry of a link: the commands of the known prefix, in slot order, from a free link on.
// Every slot is looked at, and a flag says whether all so far are agreed: that the walk ends early is a request of its own (R-1), built when it is asked for.
#[tactic(auto, using(crate::proofs::Walk::walk_starts, crate::proofs::Walk::slot_counted, crate::proofs::Walk::slot_passed, crate::proofs::Walk::walk_ends))]
fn entry_of(table: &[u64], link: u64) -> Entry
    ensures { result ≡ entry_of (known_prefix table.now) link }
{
    let mut entry = Entry::default();
    let mut known = true;
    for s in 0..SLOTS {
        let value = agreed_at(table, Slot(s));
        known &= value != 0;
        if known {
            entry = applied(entry, link, value);
        }
    }
    entry
}

// What the board says of a link.
#[tactic(auto, unfolding(crate::specs::Board::board_of))]
pub fn board(table: &[u64], link: u64) -> Result<Entry, BoardRefusal>
    ensures { answer_by_rules result ≡ board_of table.now link }
{
    if !table_ok(table) {
        return Err(BoardRefusal::BadTable);
    }
    if LAST_LINK < link {
        return Err(BoardRefusal::BadLink);
    }
    Ok(entry_of(table, link))
}

// The rules' number of an answer, and the owner, the revision and the ticket, which are zeros where it is refused. A function and no `From`, which
// only the library could write for a `Result`.
pub fn numbers_of(answer: Result<Entry, BoardRefusal>) -> [u64; 4]
    ensures { result ≡ numbers_of (answer_by_rules answer) }
{
    match answer {
        Ok(entry) => [0, entry.owner, entry.revision, entry.ticket],
        Err(refusal) => [u64::from(refusal), 0, 0, 0],
    }
}
