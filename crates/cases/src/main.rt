// Answers each of the sheets in this folder that the arguments name, as `planner` would.
#![tactic(auto)]

use anyhow::anyhow;
use console::write_named;
use press::{MAX_LINE, answer};

fn main(rt: HostRuntime) -> anyhow::Result<()> {
    let told = |sheet: &[u8], line: &mut [u8]| {
        answer(sheet, line).map_err(|_| anyhow!("the line does not fit its buffer"))
    };
    write_named(&rt, told, &mut [0; MAX_LINE], &mut rt.stdout())
}
