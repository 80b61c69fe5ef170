// The two-letter codes of Appendix A: whether a code is a state's, a province's or neither.
#![tactic(auto, using(crate::proofs::CodeRows::placed))]

ghost use Rattle.std.specs.Prelude.{◌≡◌, ◌++◌, position};
ghost use Rattle.codes.specs.Codes.{states, provinces, is_code, region_of};

// What a code stands for.
#[derive(Clone, Copy)]
pub enum Region {
    State,
    Province,
}

// The states, DC among them in its place, then the provinces, in the order of Appendix A.
const CODES: [[u8; 2]; 64] = [
    *b"AL", *b"AK", *b"AZ", *b"AR", *b"CA", *b"CO", *b"CT", *b"DE", *b"DC", *b"FL", *b"GA", *b"HI",
    *b"ID", *b"IL", *b"IN", *b"IA", *b"KS", *b"KY", *b"LA", *b"ME", *b"MD", *b"MA", *b"MI", *b"MN",
    *b"MS", *b"MO", *b"MT", *b"NE", *b"NV", *b"NH", *b"NJ", *b"NM", *b"NY", *b"NC", *b"ND", *b"OH",
    *b"OK", *b"OR", *b"PA", *b"RI", *b"SC", *b"SD", *b"TN", *b"TX", *b"UT", *b"VT", *b"VA", *b"WA",
    *b"WV", *b"WI", *b"WY", *b"AB", *b"BC", *b"MB", *b"NB", *b"NL", *b"NS", *b"NT", *b"NU", *b"ON",
    *b"PE", *b"QC", *b"SK", *b"YT",
];

// How many of the codes are states.
const STATES: usize = 51;

// The place of the code ab in the table.
fn place_of(a: u8, b: u8) -> Option<usize>
    ensures { result ≡ position (is_code a b) (states ++ provinces) }
{
    CODES.iter().position(|code| *code == [a, b])
}

// What the two capitals a, b stand for; nothing, where they are no code.
pub fn region_of(a: u8, b: u8) -> Option<Region>
    ensures { result ≡ region_of a b }
{
    match place_of(a, b) {
        Some(k) if k < STATES => Some(Region::State),
        Some(_) => Some(Region::Province),
        None => None,
    }
}
