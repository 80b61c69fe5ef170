// What the machine knows of a line, in every format: what its record says and asks, and the verdict
// on it.
#![tactic(auto)]

pub mod head;
pub mod layout;

ghost use Rattle.std.specs.Prelude.{◌≡◌};
ghost use Rattle.reason.specs.ReasonNumbers.{finding_of};
ghost use Rattle.edits.specs.Edit.{first_broken};
ghost use Rattle.shape.specs.EndOfInput.{end_edits};

use calendar::Quarter;
use edits::Phase;
use reason::{Broken, Edit, Reason};

// The most S records of a file.
pub const MOST_EMPLOYEES: u64 = 100000;

// An E record: its FEIN, whether that may stand on no other E, whether S records follow; what its
// entry takes over: the flags of an amended and of a final return, and the cease date; the account
// number as two numbers to the base 256; and the quarter that the file reports, if it tells it. What
// a format has not is 0 or false.
#[derive(Clone, Copy)]
pub struct EmployerOn {
    pub fein: u64,
    pub once: bool,
    pub follow: bool,
    pub amended: u64,
    pub final_return: u64,
    pub cease_date: u64,
    pub account_head: u64,
    pub account_tail: u64,
    pub files: Option<Quarter>,
}

// An S record: the identity number, the wages in cents, and a second amount in cents, 0 in a format
// that has none.
#[derive(Clone, Copy)]
pub struct EmployeeOn {
    pub id: u64,
    pub wages: u64,
    pub second: u64,
}

// A record under an E that is no S: it changes neither the place nor the tables, and parts no E
// from the S records under it.
#[derive(Clone, Copy)]
pub enum Note {
    // A payment that was made.
    Deposit,
}

// What a record says to the walk; a line of no record says nothing. That is a variant and no `None`,
// since what a line leaves (`goes_on`) has an answer for it as for the others.
#[derive(Clone, Copy)]
pub enum Said {
    OfA(Quarter),
    OfE(EmployerOn),
    OfS(EmployeeOn),
    OfT,
    OfF,
    OfNote(Note),
    OfNone,
}

// The verdict on a line: what is broken; or the bytes that the line and its end take, and what its
// record says.
pub type Verdict = Result<(usize, Said), Broken>;

// What the end of the input finds: only after F may it come.
#[tactic(auto, using(crate::specs::EndOfInputLaws::end_parts))]
pub fn end_edit(phase: Phase) -> Edit
    ensures { finding_of result ≡ first_broken (end_edits phase) }
{
    match phase {
        Phase::BeforeA => Err(Broken(1, Reason::EndsBeforeA)),
        Phase::AfterA => Err(Broken(1, Reason::EndsAfterA)),
        Phase::EOpen => Err(Broken(1, Reason::EndsWithEOpen)),
        Phase::AfterT => Err(Broken(1, Reason::EndsWithoutF)),
        Phase::AfterF => Ok(()),
    }
}
