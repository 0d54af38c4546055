//! Reads a sheet from standard input, solves its board whole, and prints what it found.
#![tactic(auto)]

use anyhow::bail;
use report::solve_sheet::{MOST_BYTES, solve_sheet};
use std::io::Read;
use std::process::ExitCode;

fn main(rt: HostRuntime) -> anyhow::Result<ExitCode> {
    let mut sheet = Vec::new(rt.alloc());
    // one byte more than is taken tells a sheet that is too long
    rt.stdin()
        .take(MOST_BYTES as u64 + 1)
        .read_to_end(&mut sheet)?;
    let why = match solve_sheet(rt.alloc(), sheet.as_slice()) {
        Ok(report) => {
            print!(rt; "{report}")?;
            return Ok(ExitCode::SUCCESS);
        }
        Err(why) => why,
    };
    let Some(refused) = why.printed() else {
        bail!("no memory");
    };
    print!(rt; "{refused}")?;
    Ok(ExitCode::FAILURE)
}
