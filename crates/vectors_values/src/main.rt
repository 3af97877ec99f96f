// Runs the values that document 01 gives for the leaves, and some at their limits; crates/vectors_values/stdout holds what they must be.
#![tactic(auto)]

mod chain;
mod endpoint;
mod list;
mod route;

use std::io;

fn yes_or_no(b: bool) -> &'static str {
    if b { "yes" } else { "no" }
}

fn main(rt: HostRuntime) -> io::Result<()> {
    endpoint::packet_sizes(&rt)?;
    endpoint::intervals(&rt)?;
    endpoint::endpoints(&rt)?;
    list::valid(&rt)?;
    list::refused(&rt)?;
    list::limits(&rt)?;
    list::companions(&rt)?;
    list::lookup(&rt)?;
    chain::accepted(&rt)?;
    chain::refused(&rt)?;
    chain::think_times(&rt)?;
    route::table(&rt)?;
    route::replacements(&rt)
}
