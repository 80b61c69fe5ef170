// Runs stored lines through the edits of a record, each in a context of its own, and prints each
// verdict.
//
// A case ends with #. Its first 77 characters are the context, digits in fixed columns (`context`
// below reads them), then a stroke; after it stand the bytes that the call is lent. The answer is a
// line of two numbers: the paper's number and the column, or 0 and the bytes taken.
#![tactic(auto)]

use calendar::Quarter;
use edits::format::Format;
use edits::{Context, Open, Opening, Phase, Seen, Totals};
use reason::Broken;
use shape::Verdict;
use std::io;

fn phase(n: u64) -> Phase {
    match n {
        0 => Phase::BeforeA,
        1 => Phase::AfterA,
        2 => Phase::EOpen,
        3 => Phase::AfterT,
        _ => Phase::AfterF,
    }
}

fn is_set(s: &[u8], column: u16) -> bool {
    number::value_in(s, column, column) == 1
}

fn open(s: &[u8]) -> Open {
    Open {
        fein: number::value_in(s, 14, 22),
        follow: is_set(s, 23),
        count: number::value_in(s, 24, 30),
        sum: number::value_in(s, 31, 44),
        ..Open::default()
    }
}

fn totals(s: &[u8]) -> Totals {
    Totals {
        count: number::value_in(s, 45, 51),
        employers: number::value_in(s, 52, 58),
        sum: number::value_in(s, 59, 73),
        ..Totals::default()
    }
}

fn context(s: &[u8]) -> Context {
    Context {
        phase: phase(number::value_in(s, 1, 1)),
        held: Opening {
            format: Format::Pfml,
            year: number::value_in(s, 2, 5),
            month: number::value_in(s, 6, 7),
        },
        filed: Quarter {
            year: number::value_in(s, 8, 11),
            month: number::value_in(s, 12, 13),
        },
        open: open(s),
        all: totals(s),
        ids_full: is_set(s, 74),
        list_full: is_set(s, 75),
    }
}

fn seen(s: &[u8]) -> Seen {
    Seen {
        fein: is_set(s, 76),
        id: is_set(s, 77),
    }
}

fn answer(rt: HostRuntime, number: u64, place: u64) -> io::Result<()> {
    println!(rt; "{number} {place}")
}

fn tell(rt: HostRuntime, verdict: Verdict) -> io::Result<()> {
    match verdict {
        Err(Broken(column, reason)) => {
            answer(rt, u64::from(u8::from(reason)), u64::from(column))
        }
        Ok((taken, _)) => answer(rt, 0, taken as u64),
    }
}

fn case(rt: HostRuntime, s: &[u8]) -> io::Result<()> {
    if s.len() < 78 {
        return answer(rt, 99, 0);
    }
    tell(rt, record::judge(context(s), seen(s), &s[78..]))
}

fn main(rt: HostRuntime) -> io::Result<()> {
    let mut buffer = [0u8; 65536];
    let n = streams::read_full(rt, &mut buffer)?;
    let mut rest = &buffer[..n];
    while let Some(end) = rest.iter().position(|c| *c == b'#') {
        case(rt, &rest[..end])?;
        rest = &rest[end + 1..];
    }
    Ok(())
}
