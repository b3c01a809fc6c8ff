// Files a clause file from standard input into a new case, and prints what was filed, or which question the file failed and at
// which byte.
#![tactic(auto)]

use dimacs::{MOST_BYTES, read};
use statements::{Clause, LiteralSet};
use std::io;
use std::io::Read;

// How many clauses a case takes here.
const ROWS: usize = 512;

fn main(rt: HostRuntime) -> io::Result<()> {
    let mut text = Vec::new(rt.alloc());
    // one byte over the limit tells a text that is too long, and nothing after it is read
    let limit = MOST_BYTES as u64 + 1;
    rt.stdin().take(limit).read_to_end(&mut text)?;
    // 512 rows are promised for every text, so the table that is lent has a fixed size
    let mut table = [Clause::from(LiteralSet::empty()); ROWS];
    // each arm prints lines of its own, so there is no error to hand on by `?`
    match read(text.as_slice(), &mut table) {
        Ok(case) => {
            println!(rt; "c points {}", case.points())?;
            println!(rt; "c clauses {}", case.filed())
        }
        Err(fault) => println!(rt; "c {fault}"),
    }
}
