// Prints the memory map of the device description on standard input, or `NO 04 at` and the offset
// of its first field at fault. What went wrong goes to standard error, and the status is then 1.
#![tactic(auto)]

use device::Description;
use memory_map::Report;
use std::io::Read;
use std::process::ExitCode;

fn run(rt: &HostRuntime) -> anyhow::Result<()> {
    let mut input = Vec::new(rt.alloc());
    // one byte more than a record has tells that the input is too long; no `From` widens a usize
    let most = Description::LENGTH as u64 + 1;
    rt.stdin().take(most).read_to_end(&mut input)?;
    let report = Report::from(&input[..]);
    print!(rt; "{report}")?;
    report.0?;
    Ok(())
}

fn main(rt: HostRuntime) -> ExitCode {
    match run(&rt) {
        Ok(()) => ExitCode::SUCCESS,
        Err(error) => {
            let _ = eprintln!(rt; "st7device: {error}");
            ExitCode::FAILURE
        }
    }
}
