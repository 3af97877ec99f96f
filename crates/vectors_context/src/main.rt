// Runs the context facts of document 01 at both spacings, over contents that are not zero; crates/vectors_context/stdout holds what they must be.
#![tactic(auto)]

mod memory;
mod show;
mod steps;
mod view;

use memory::Context;
use std::io;

fn over_contents(rt: &impl Print, c: &mut Context) -> io::Result<()> {
    println!(rt; "spacing {}, over bytes of 0x5a", c.spacing)?;
    steps::header(rt, c)?;
    steps::claim_two(rt, c)?;
    steps::configuration(rt, c)?;
    steps::hub(rt, c, def::HIGH, 3)?;
    steps::hub(rt, c, def::FULL, 1)
}

fn after_address(rt: &impl Print, c: &mut Context, other: usize) -> io::Result<()> {
    println!(rt; "spacing {}, after Address", c.spacing)?;
    steps::address(rt, c)?;
    steps::claim_one(rt, c)?;
    view::claimed(rt, c, other)
}

fn main(rt: HostRuntime) -> io::Result<()> {
    over_contents(&rt, &mut Context::of(&mut [0x5a; 1056], 32))?;
    after_address(&rt, &mut Context::of(&mut [0x5a; 1056], 32), 64)?;
    over_contents(&rt, &mut Context::of(&mut [0x5a; 2112], 64))?;
    after_address(&rt, &mut Context::of(&mut [0x5a; 2112], 64), 32)
}
