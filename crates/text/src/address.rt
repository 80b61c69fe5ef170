// State, ZIP and extension.
#![tactic(auto, unfolding(laws::specs::Spelling::bytes))]

ghost use Rattle.std.specs.Prelude.{◌≡◌};
ghost use Rattle.reason.specs.ReasonNumbers.{finding_of};
ghost use Rattle.chars.specs.Characters.{capitals};
ghost use Rattle.text.specs.Address.{region_in, state_test, zip_test, extension_test};

use chars::columns;
use codes::Region;
use reason::{Edit, Reason};

// What the two letters of a state's field stand for.
pub fn region_in(line: &[u8], first: u16) -> Option<Region>
    ensures { result ≡ region_in (capitals line.now) first }
{
    let at = chars::index_of(first) as usize;
    codes::region_of(chars::char_at(line, at), chars::char_at(line, at + 1))
}

// 35, where the two letters are neither a state nor a province.
pub fn state_edit(region: Option<Region>, first: u16) -> Edit
    ensures { finding_of result ≡ state_test region first }
{
    columns::unless(region.is_some(), first, Reason::UnknownState)
}

// 36, unless it reads as five digits with a state, or letter digit letter blank digit with a
// province.
pub fn zip_edit(region: Option<Region>, line: &[u8], first: u16) -> Edit
    ensures { finding_of result ≡ zip_test region (capitals line.now) first }
{
    match region {
        Some(Region::State) => crate::pattern_edit(b"ddddd", line, first, Reason::BadZip),
        Some(Region::Province) => crate::pattern_edit(b"ldl d", line, first, Reason::BadZip),
        None => Ok(()),
    }
}

// 37, unless it is blank or a hyphen and four digits with a state, or letter, digit and three blanks
// with a province.
pub fn extension_edit(region: Option<Region>, line: &[u8], first: u16) -> Edit
    ensures { finding_of result ≡ extension_test region (capitals line.now) first }
{
    match region {
        Some(Region::State) => columns::unless(
            crate::has_pattern(line, first, b"     ") || crate::has_pattern(line, first, b"-dddd"),
            first,
            Reason::BadZipExtension,
        ),
        Some(Region::Province) => crate::pattern_edit(
            b"ld   ",
            line,
            first,
            Reason::BadZipExtension,
        ),
        None => Ok(()),
    }
}
