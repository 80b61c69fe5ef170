// One line.
ghost use Rattle.std.specs.Prelude.{◌≡◌, length};
ghost use Rattle.lines.specs.Lines.{first_line};
ghost use Rattle.state.specs.Walks.{walk_of};
ghost use Rattle.step.specs.Moves.{moved_by, line_seen};
ghost use Rattle.step.specs.Questions.{id_asked_by, id_found};

use crate::Move;
use edits::Seen;
use state::State;

// Whether the identity number that the line in front of the bytes asks for is among those in use.
fn has_id(st: State, bytes: &[u8], ids: &[u32]) -> bool
    ensures { result ≡ id_found (id_asked_by st.held.format bytes.now) st.used ids.entry.now }
{
    match record::id_asked(st.held.format, bytes) {
        Some(id) => tables::ids::has(ids, st.used, id as u32),
        None => false,
    }
}

// One line: `repeated` says whether its FEIN is among those of the entries in use; the list has so
// many entries.
pub fn line_move(st: State, bytes: &[u8], ids: &[u32], list: usize, repeated: bool) -> Move
    ensures { moved_by result ≡ line_seen (record { ids = length ids.entry.now; list = list }) (record { fein = repeated; id = id_found (id_asked_by st.held.format bytes.now) st.used ids.entry.now }) (walk_of st) (first_line bytes.now) }
{
    let seen = Seen {
        fein: repeated,
        id: has_id(st, bytes, ids),
    };
    crate::reading::line_seen(st, bytes, seen, ids.len(), list)
}
