// Marks of identity numbers, eight to a byte: a number whose mark is not set is none of those
// marked, so that most searches are saved. None of the functions asks anything of the number of
// marks.
#![tactic(auto, unfolding(crate::specs::Marks::has_bit, crate::specs::Marks::with_bit))]

ghost use Rattle.std.specs.Prelude.{◌<◌, ◌≡◌, take};
ghost use Rattle.employees.specs.Marks.{mark_of, has_bit, with_bit, is_marked, with_mark, with_marks};

fn mark_of(id: u64) -> usize
    ensures { result ≡ mark_of id }
{
    (id % 262144) as usize
}

fn has_bit(byte: u8, bit: u32) -> bool
    requires { bit < 8 }
    ensures { result ≡ has_bit byte bit }
{
    (byte >> bit) % 2 == 1
}

fn with_bit(byte: u8, bit: u32) -> u8
    requires { bit < 8 }
    ensures { result ≡ with_bit byte bit }
{
    byte | (1u8 << bit)
}

// Past the marks' end every number counts as marked.
pub fn is_marked(marks: &[u8], id: u64) -> bool
    ensures { result ≡ is_marked marks.now id }
{
    let slot = mark_of(id);
    match marks.get(slot / 8) {
        Some(byte) => has_bit(*byte, (slot % 8) as u32),
        None => true,
    }
}

// Past the marks' end nothing is written. By index: with `get_mut` the proof did not close.
pub fn mark(marks: &mut [u8], id: u64)
    ensures { marks.new ≡ with_mark id marks.old }
{
    let slot = mark_of(id);
    let place = slot / 8;
    if place < marks.len() {
        marks[place] = with_bit(marks[place], (slot % 8) as u32);
    }
}

// The first n numbers marked, or all where there are less.
pub fn mark_first(marks: &mut [u8], ids: &[u32], n: usize)
    ensures { marks.new ≡ with_marks (take n ids.now) marks.old }
{
    let first = &ids[..n.min(ids.len())];
    for id in first {
        mark(marks, u64::from(*id));
    }
}
