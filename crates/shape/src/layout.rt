// A format as the code reads a line of it: its records by their letters, and what each of them
// breaks, says and asks. What is made of these is the same in every format.
#![tactic(auto)]

ghost use Rattle.std.specs.Prelude.{◌≡◌, ◌++◌, ℕ, Bool, List, get_or};
ghost use Rattle.reason.specs.ReasonNumbers.{finding_of};
ghost use Rattle.chars.specs.Characters.{capitals};
ghost use Rattle.edits.specs.Edit.{Edit as EditOf, first_broken};
ghost use Rattle.edits.specs.declared.Context.{Context};
ghost use Rattle.edits.specs.declared.Seen.{Seen};
ghost use Rattle.shape.specs.Head.{head_of};
ghost use Rattle.shape.specs.Shape.{Shape, fein_asked, id_asked};
ghost use Rattle.shape.specs.declared.Said.{Said};

use crate::{Said, head};
use edits::{Context, Seen};
use reason::Edit;

// A value of it is an edition of the format, if that has several.
pub trait Layout: Copy {
    // The records, by their letters.
    type Kind: Copy;

    // How many characters a line has.
    ghost LENGTH: { ℕ };

    const LENGTH: u16;

    // All that the machine knows of the format, and of a record of a kind: whether its letter is
    // known, the edits of its place and count and those of its fields, and what it says.
    ghost shape: { Self → Shape };

    ghost kind_by: { ℕ → Self.Kind };

    ghost knows: { Self.Kind → Bool };

    ghost placed: { Self → Context → Self.Kind → List EditOf };

    ghost fields: { Self → Context → Seen → List ℕ → Self.Kind → List EditOf };

    ghost says_by: { Self.Kind → List ℕ → Said };

    // The record that a letter names; the letter is a capital.
    fn kind_of(self, letter: u8) -> Self::Kind
        ensures { result ≡ kind_by letter };

    // Whether a letter names a record.
    fn is_known(self, kind: Self::Kind) -> bool
        ensures { result ≡ knows kind };

    // Place and count of a record whose letter is known.
    fn placed_edit(self, kind: Self::Kind, here: Context) -> Edit
        ensures { finding_of result ≡ first_broken (placed self here kind) };

    // Its fields, in order.
    fn fields_edit(self, kind: Self::Kind, here: Context, seen: Seen, line: &[u8]) -> Edit
        ensures { finding_of result ≡ first_broken (fields self here seen (capitals line.now) kind) };

    // What a record of this kind says to the walk.
    fn said_by(self, kind: Self::Kind, line: &[u8]) -> Said
        ensures { result ≡ says_by kind (capitals line.now) };

    // What it asks of the employer list.
    fn fein_asked(self, kind: Self::Kind, line: &[u8]) -> Option<u64>
        ensures { result ≡ fein_asked (says_by kind (capitals line.now)) };

    // What it asks of the id table.
    fn id_asked(self, kind: Self::Kind, line: &[u8]) -> Option<u64>
        ensures { result ≡ id_asked (says_by kind (capitals line.now)) };

    // "characters, letter, place, then fields by first column"
    ghost edits_are: { (layout : Self) (here : Context) (seen : Seen) (text : List ℕ) → let kind = kind_by (get_or text 0 0) in (shape layout).edits here seen text ≡ head_of LENGTH (knows kind) (placed layout here kind) text ++ fields layout here seen text kind };

    ghost says_are: { (layout : Self) (text : List ℕ) → (shape layout).says text ≡ says_by (kind_by (get_or text 0 0)) text };
}

// Characters, letter, place and count.
#[tactic(auto, using(crate::specs::HeadLaws::head_finds))]
fn head_edit<L: Layout>(layout: L, kind: L::Kind, here: Context, line: &[u8]) -> Edit
    ensures { finding_of result ≡ first_broken (head_of L.LENGTH (L.knows kind) (L.placed layout here kind) (capitals line.now)) }
{
    let placed = layout.placed_edit(kind, here);
    head::head_edit(L::LENGTH, layout.is_known(kind), placed, line)
}

// All edits of a line of the right length.
pub fn text_edit<L: Layout>(layout: L, here: Context, seen: Seen, line: &[u8]) -> Edit
    ensures { finding_of result ≡ first_broken ((L.shape layout).edits here seen (capitals line.now)) }
{
    let kind = layout.kind_of(chars::char_at(line, 0));
    head_edit(layout, kind, here, line)?;
    layout.fields_edit(kind, here, seen, line)
}

// What the record on a line says.
pub fn said_on<L: Layout>(layout: L, line: &[u8]) -> Said
    ensures { result ≡ (L.shape layout).says (capitals line.now) }
{
    layout.said_by(layout.kind_of(chars::char_at(line, 0)), line)
}

// What the record on a line asks of the employer list.
pub fn fein_asked<L: Layout>(layout: L, line: &[u8]) -> Option<u64>
    ensures { result ≡ fein_asked ((L.shape layout).says (capitals line.now)) }
{
    layout.fein_asked(layout.kind_of(chars::char_at(line, 0)), line)
}

// What the record on a line asks of the id table.
pub fn id_asked<L: Layout>(layout: L, line: &[u8]) -> Option<u64>
    ensures { result ≡ id_asked ((L.shape layout).says (capitals line.now)) }
{
    layout.id_asked(layout.kind_of(chars::char_at(line, 0)), line)
}
