// How a field is filled, by its class.
ghost use Rattle.std.specs.Prelude.{◌≡◌};
ghost use Rattle.build.specs.Values.{form_of};

use field::class::Class;

#[derive(Clone, Copy)]
pub enum Form {
    // A number.
    Amount,
    // A number, or none.
    Account,
    // A text.
    Words,
    // The record's letter.
    Letter,
    // The taxing entity's code.
    Code,
    // Blanks.
    Blank,
}

// The entry of an account number that is left out.
pub const NO_ACCOUNT: u64 = u64::MAX;

// How the value of a field of this class is given: as a number, as a text, or not at all.
pub fn form_of(class: Class) -> Form
    ensures { result ≡ form_of class }
{
    match class {
        Class::Numeric
        | Class::Flag
        | Class::ThirdQuarterFlag
        | Class::Period
        | Class::TaxYear
        | Class::EmployerFein
        | Class::IdentityNumber
        | Class::CeaseDate => Form::Amount,
        Class::AccountNumber => Form::Account,
        Class::RequiredText
        | Class::OptionalText
        | Class::PersonName
        | Class::StateCode
        | Class::ZipCode
        | Class::ZipExtension => Form::Words,
        Class::RecordLetter => Form::Letter,
        Class::EntityCode => Form::Code,
        Class::Ignored | Class::BlankSpace | Class::More(_) => Form::Blank,
    }
}
