// Runs `all_set` on the cases of standard input and prints each answer, 1 or 0, on a line. A case is four numbers of two bytes, low byte first: a count, two points from and up to
// which all points are marked, and a point that is not. The cases, and what the crate's file `stdout` has, come from `tests/marks_cases`.
#![tactic(auto)]

use marks::Marks;
use std::io;
use streams::fill;
use test_text::number_at;

// Point i marked too, unless it is the one that is bare.
fn mark(m: Marks, i: usize, bare: usize) -> Marks {
    if i == bare {
        return m;
    }
    m.set(i)
}

// All points from `low` up to `high` are marked, but for one.
fn marks_of(low: usize, high: usize, bare: usize) -> Marks {
    let mut m = Marks::none();
    for i in low..high {
        m = mark(m, i, bare);
    }
    m
}

// The answer on a case.
fn answer(s: &[u8]) -> bool {
    let count = number_at(s, 0);
    let low = number_at(s, 2);
    let high = number_at(s, 4);
    let bare = number_at(s, 6);
    let m = marks_of(low, high, bare);
    m.all_set(count)
}

fn main(rt: HostRuntime) -> io::Result<()> {
    let mut input = [0u8; 65536];
    let n = fill(&mut rt.stdin(), &mut input)?;
    for case in input[..n].chunks_exact(8) {
        println!(rt; "{}", u8::from(answer(case)))?;
    }
    Ok(())
}
