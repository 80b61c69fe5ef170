// The amended withholding file of 275 characters: the edits of one line in the stated order, and
// what the record on it says and asks.
#![tactic(auto)]

pub mod fitness;
pub mod kind;
pub mod place;
pub mod said;

ghost use Rattle.std.specs.Prelude.{◌≡◌, ◌≤◌, refl};
ghost use Rattle.edits.specs.FieldEdits.{field_edits};
ghost use Rattle.wham.specs.Edits.{rows_for, rules_for, around as around_of, placed_edits};
ghost use Rattle.wham.specs.Format.{wham_shape};
ghost use Rattle.wham.specs.Kinds.{kind_of, is_known};
ghost use Rattle.wham.specs.Says.{said_by};
ghost use Rattle.wham.specs.TextParts.{IsPart};

use edits::{Around, Context, Seen, fields};
use kind::Kind;
use reason::Edit;
use shape::Said;
use shape::layout::Layout;
use wham_fields::{
    ALL_FIELDS, Edition, FIRST_OF_A, FIRST_OF_E, FIRST_OF_F, FIRST_OF_R, FIRST_OF_S, FIRST_OF_T,
    field_rules,
};

// The taxing entity's code.
pub const ENTITY: [u8; 4] = *b"WHAM";

// The numbers of a record's fields in the list of all: the first, and the one after the last.
fn part_of(kind: Kind) -> (usize, usize)
    ensures { (result.0 ≤ result.1) × (result.1 ≤ 78) × ((edition : _) → IsPart edition kind result.0 result.1) }
{
    match kind {
        Kind::Transmitter => (FIRST_OF_A, FIRST_OF_E),
        Kind::Employer => (FIRST_OF_E, FIRST_OF_S),
        Kind::Employee => (FIRST_OF_S, FIRST_OF_R),
        Kind::Deposit => (FIRST_OF_R, FIRST_OF_T),
        Kind::Total => (FIRST_OF_T, FIRST_OF_F),
        Kind::Final => (FIRST_OF_F, ALL_FIELDS),
        Kind::Unknown => (ALL_FIELDS, ALL_FIELDS),
    }
}

// The file of an edition as the code reads it.
#[derive(Clone, Copy)]
pub struct Wham(pub Edition);

impl Layout for Wham {
    type Kind = Kind;

    ghost LENGTH = { 275 };

    const LENGTH: u16 = wham_fields::RECORD;

    ghost shape = { λ layout. wham_shape layout.0 };

    ghost kind_by = { kind_of };

    ghost knows = { is_known };

    ghost placed = { λ layout here kind. placed_edits layout.0 here kind };

    ghost fields = { λ layout here seen text kind. field_edits (around_of here seen kind) text (rows_for kind) (rules_for layout.0 kind) };

    ghost says_by = { said_by };

    ghost edits_are = { λ layout here seen text. refl };

    ghost says_are = { λ layout text. refl };

    fn kind_of(self, letter: u8) -> Kind {
        kind::kind_of(letter)
    }

    fn is_known(self, kind: Kind) -> bool {
        kind::is_known(kind)
    }

    fn placed_edit(self, kind: Kind, here: Context) -> Edit {
        place::place_edit(self.0, here.phase, here.open.follow, kind)?;
        place::count_edit(kind, here.all)
    }

    fn fields_edit(self, kind: Kind, here: Context, seen: Seen, line: &[u8]) -> Edit {
        let (from, to) = part_of(kind);
        let rows = wham_fields::all_rows();
        let rules = field_rules::all_rules(self.0);
        let around = Around {
            landmarks: kind::landmarks_of(kind),
            code: ENTITY,
            here,
            seen,
        };
        fields::first_broken(&around, line, &rows[from..to], &rules[from..to])
    }

    fn said_by(self, kind: Kind, line: &[u8]) -> Said {
        said::said_by(kind, line)
    }

    fn fein_asked(self, kind: Kind, line: &[u8]) -> Option<u64> {
        said::fein_asked(kind, line)
    }

    fn id_asked(self, kind: Kind, line: &[u8]) -> Option<u64> {
        said::id_asked(kind, line)
    }
}
