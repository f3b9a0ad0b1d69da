// Tries the op-code tables. Standard input has a line for each row of them: bytes, mnemonic, operands, length and cycles, as
// `92 D6 12|LD|A,([$12.w],X)|3|7`, for an instruction at $C000. The bytes of each are decoded and encoded again, and what the library
// says of them is held to the row. Then all codes are tried, without a prebyte and behind each of the three.
#![tactic(auto)]

mod codes;
mod row;
mod tally;

use anyhow::anyhow;
use codes::print_codes;
use std::io::Read;
use tally::Tally;

fn run(rt: &HostRuntime) -> anyhow::Result<()> {
    let mut input = Vec::new(rt.alloc());
    rt.stdin().read_to_end(&mut input)?;
    let mut tally = Tally::default();
    for line in input.split_inclusive(|byte| *byte == b'\n') {
        let row = line.strip_suffix(b"\n").unwrap_or(line);
        tally.count(rt, row)?;
    }
    tally.end(rt)?;
    print_codes(rt)?;
    if tally.wrong > 0 {
        return Err(anyhow!("a row is not as the library says"));
    }
    Ok(())
}

fn main(rt: HostRuntime) -> anyhow::Result<()> {
    run(&rt)
}
