// Answers each of the sheets in this folder that the arguments name with its plan, or with the line that tells why it has none.
#![tactic(auto)]

use anyhow::anyhow;
use console::write_named;
use rehearsals::{MAX_TEXT, answer};

fn main(rt: HostRuntime) -> anyhow::Result<()> {
    let told = |sheet: &[u8], text: &mut [u8]| {
        answer(sheet, text).map_err(|_| anyhow!("the text does not fit its buffer"))
    };
    write_named(&rt, told, &mut [0; MAX_TEXT], &mut rt.stdout())
}
