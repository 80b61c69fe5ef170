// Text written into a line.
#![tactic(auto, using(crate::specs::PutLaws::uppercased), unfolding(crate::specs::Put::put_text))]

ghost use Rattle.std.specs.Prelude.{◌≡◌, length};
ghost use Rattle.chars.specs.Characters.{capitals};
ghost use Rattle.text.specs.Put.{blanks, put_text};

// Every column of the line blank.
pub fn blank_line(line: &mut [u8])
    ensures { line.new ≡ blanks (length line.old) }
{
    line.fill(b' ');
}

// The text from a column on; column 0 is read as column 1. What would stand after the line's end is
// left out. A loop, since `copy_from_slice` would have callers in C bring memmove.
pub fn put_text(line: &mut [u8], first: u16, text: &[u8])
    ensures { line.new ≡ put_text line.old first text.now }
{
    let at = line.len().min(chars::index_of(first) as usize);
    let room = text.len().min(line.len() - at);
    for i in 0..room {
        line[at + i] = text[i];
    }
}

// Every character of the line as it is read.
pub fn in_capitals(line: &mut [u8])
    ensures { line.new ≡ capitals line.old }
{
    line.make_ascii_uppercase();
}
