// Plays the script on standard input, and prints what it prints.
#![tactic(auto)]

use std::io::{Read, Write};

fn run(rt: &HostRuntime) -> anyhow::Result<()> {
    let mut script = Vec::new(rt.alloc());
    rt.stdin().read_to_end(&mut script)?;
    let text = script::rehearse(rt.alloc(), script.as_slice())?;
    rt.stdout().write_all(text.as_bytes())?;
    Ok(())
}

fn main(rt: HostRuntime) -> anyhow::Result<()> {
    run(&rt)
}
