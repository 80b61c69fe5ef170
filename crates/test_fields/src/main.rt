// Runs stored cases through the tests of fields, lines, codes and dates, and prints each answer.
//
// A case is a line of the input: two digits name the test, three digits and three digits are its
// numbers a and b, and the rest is its text. Its answer is a line of three numbers: the paper's
// number (0 where nothing is broken), the column, and the value.
#![tactic(auto)]

ghost use Rattle.std.specs.Prelude.{◌<◌};

use calendar::Quarter;
use field::class;
use field::class::Field;
use reason::{Broken, Edit};
use std::io;
use text::address;

// ---- answers as lines of three numbers
fn print_answer(rt: HostRuntime, number: u64, column: u64, value: u64) -> io::Result<()> {
    println!(rt; "{number} {column} {value}")
}

fn print_number(rt: HostRuntime, n: Result<u64, Broken>) -> io::Result<()> {
    match n {
        Ok(v) => print_answer(rt, 0, 0, v),
        Err(Broken(column, reason)) => {
            print_answer(rt, u64::from(u8::from(reason)), u64::from(column), 0)
        }
    }
}

fn print_edit(rt: HostRuntime, e: Edit) -> io::Result<()> {
    print_number(rt, e.map(|()| 0))
}

// The byte that a character stands for: / for LF, \ for CR, and any other for itself.
fn byte_for(c: u8) -> u8 {
    match c {
        b'/' => b'\n',
        b'\\' => b'\r',
        _ => c,
    }
}

// The first line of a text of such characters, which is to have n of them.
fn print_cut(rt: HostRuntime, s: &[u8], n: u16) -> io::Result<()> {
    let length = s.len();
    if 256 < length {
        return print_answer(rt, 99, 0, 0);
    }
    let mut bytes = [0u8; 256];
    bytes[..length].copy_from_slice(s);
    for byte in &mut bytes {
        *byte = byte_for(*byte);
    }
    print_number(
        rt,
        lines::cut_line(&bytes[..length], n).map(|taken| taken as u64),
    )
}

// A number written into 24 columns of points.
fn print_written(rt: HostRuntime, first: u16, last: u16, v: u64) -> io::Result<()> {
    let mut line = [b'.'; 24];
    number::write_number(&mut line, first, last, v);
    rt.write_all(&line)?;
    rt.write_all(b"\n")
}

// ---- one case: its test, its numbers and its text
fn read_small(s: &[u8], first: u16, last: u16) -> u16 {
    (number::value_in(s, first, last) % 65536) as u16
}

// A year and a month from a column on.
fn quarter(s: &[u8], first: u16) -> Quarter
    requires { first < 100 }
{
    Quarter {
        year: number::value_in(s, first, first + 3),
        month: number::value_in(s, first + 4, first + 5),
    }
}

fn run_case(rt: HostRuntime, s: &[u8]) -> io::Result<()> {
    if s.len() < 8 {
        return print_answer(rt, 99, 0, 0);
    }
    let test = read_small(s, 1, 2);
    let a = read_small(s, 3, 5);
    let b = read_small(s, 6, 8);
    let text = &s[8..];
    match test {
        0..=18 => print_edit(rt, class_test(test, text, a, b)),
        19..=29 => print_number(rt, reading(test, text, a, b)),
        30..=39 => print_edit(rt, address_edit(test, text, a)),
        44 => print_answer(
            rt,
            0,
            0,
            calendar::timing_of(quarter(text, 1), quarter(text, 7)) as u64,
        ),
        40..=49 => print_answer(rt, 0, 0, u64::from(calendar_test(test, text))),
        50..=59 => more(rt, test, text, a, b),
        _ => print_edit(rt, class_test(test - 60 + 19, text, a, b)),
    }
}

// The test of the class of a number, of the columns a to b.
fn class_test(number: u16, s: &[u8], a: u16, b: u16) -> Edit {
    let field = Field {
        class: class::class_of(number),
        first: a,
        last: b,
    };
    class::class_edit(s, field)
}

fn reading(test: u16, s: &[u8], a: u16, b: u16) -> Result<u64, Broken> {
    match test {
        20 => number::read_number(s, a, b),
        21 => rules::read_year(s, a, b),
        22 => rules::read_period(s, a, b),
        23 => rules::read_flag(s, a),
        24 => rules::read_fein(s, a, b),
        _ => rules::read_identity(s, a, b),
    }
}

// The state's code stands in columns 1 and 2 of the text.
fn address_edit(test: u16, s: &[u8], a: u16) -> Edit {
    let region = address::region_in(s, 1);
    match test {
        30 => text::entity_edit(*b"PFML", s, a),
        31 => address::state_edit(region, a),
        32 => address::zip_edit(region, s, a),
        _ => address::extension_edit(region, s, a),
    }
}

// A date in columns 1 to 8 and a quarter in 9 to 14, or quarters in 1 to 6 and 7 to 12.
fn calendar_test(test: u16, s: &[u8]) -> bool {
    match test {
        40 => calendar::is_date(number::value_in(s, 1, 8)),
        41 => calendar::in_quarter(number::value_in(s, 1, 8), quarter(s, 9)),
        42 => calendar::is_allowed(quarter(s, 1)),
        _ => calendar::is_after(quarter(s, 1), quarter(s, 7)),
    }
}

fn more(rt: HostRuntime, test: u16, s: &[u8], a: u16, b: u16) -> io::Result<()> {
    match test {
        50 => print_cut(rt, s, a),
        51 => print_written(rt, a, b, number::value_in(s, 1, 19)),
        52 => print_edit(
            rt,
            chars::columns::every_column(chars::columns::Allowed::Permitted, s, a, b),
        ),
        _ => print_answer(rt, 99, 0, 0),
    }
}

// ---- all cases
// A case ends at LF or at CR; what stands after the last of these is no case.
fn main(rt: HostRuntime) -> io::Result<()> {
    let mut buffer = [0u8; 65536];
    let n = streams::read_full(rt, &mut buffer)?;
    let mut rest = &buffer[..n];
    while let Some(end) = rest.iter().position(|c| matches!(*c, b'\n' | b'\r')) {
        run_case(rt, &rest[..end])?;
        rest = &rest[end + 1..];
    }
    Ok(())
}
