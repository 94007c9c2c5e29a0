// Replays the stored answers of the Rust, standard input (docs/DIFFERENCES.md says how they were made), against the
// library, and writes how many of each kind were checked and where one differs.
#![tactic(auto)]

mod lines;
mod look_ups;
mod readers;
mod readings;
mod replay;
mod texts;

use replay::Kind;
use std::io;

fn main(rt: HostRuntime) -> io::Result<()> {
    let mut space = whole_input::zeros::<1048576>();
    let n = whole_input::read_full(&mut rt.stdin(), &mut space)?;
    if n == space.len() {
        return println!(rt; "vectors: more than 1,048,575 bytes of stored answers");
    }
    let tally = replay::all(&space[..n]);
    for kind in Kind::ALL {
        println!(rt; "{kind}: {}", tally.of(kind))?;
    }
    println!(rt; "unreadable lines: {}", tally.unreadable)?;
    println!(rt; "differences: {}", tally.differences)?;
    if let Some(line) = tally.first {
        println!(rt; "first on line: {line}")?;
    }
    Ok(())
}
