// Reads a sheet of tasks from standard input, and prints the line that tells its table or its refusal.
#![tactic(auto)]

use anyhow::anyhow;
use console::read_front;
use press::{MAX_LINE, answer};
use std::io::Write;

fn main(rt: HostRuntime) -> anyhow::Result<()> {
    let sheet = read_front(rt.alloc(), rt.stdin())?;
    let mut line = [0; MAX_LINE];
    let len = answer(sheet.as_slice(), &mut line).map_err(|_| anyhow!(
        "the line does not fit its buffer"
    ))?;
    Ok(rt.stdout().write_all(&line[..len])?)
}
