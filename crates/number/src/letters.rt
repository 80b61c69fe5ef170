// A short text as a number, so that a text can be held and compared as numbers are.
#![tactic(auto, using(crate::proofs::Steps::lettering))]

ghost use Rattle.std.specs.Prelude.{◌≡◌};
ghost use Rattle.chars.specs.Characters.{capitals};
ghost use Rattle.number.specs.Letters.{letters_in};

// The characters of columns first to last, read in capitals, as a number to the base 256; 0 for
// more than seven columns.
pub fn letters_in(line: &[u8], first: u16, last: u16) -> u64
    ensures { result ≡ letters_in (capitals line.now) first last }
{
    let from = chars::index_of(first);
    if 7 < last.saturating_sub(from) {
        return 0;
    }
    let mut v: u64 = 0;
    for at in from..last {
        v = v * 256 + u64::from(chars::char_at(line, at as usize));
    }
    v
}
