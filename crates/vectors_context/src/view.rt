// Fields read back from a context.
use super::memory::Context;
use context_field::Field;
use context_view::NoReading;
use std::io;

fn reading(rt: &impl Print, label: &str, read: Result<u64, NoReading>) -> io::Result<()> {
    match read {
        Ok(v) => println!(rt; "{label} {v:08x}"),
        Err(NoReading::NoContext) => println!(rt; "{label} no context"),
        Err(NoReading::NoField) => println!(rt; "{label} no field"),
    }
}

// After a claim of Dci 3; `other` is not the context's spacing.
pub fn claimed(rt: &impl Print, c: &Context, other: usize) -> io::Result<()> {
    println!(rt; "read back")?;
    let field = |block, f| context_view::input_field(c.bytes, c.spacing, block, f);
    reading(rt, "route string:", field(1, Field::ROUTE_STRING))?;
    reading(rt, "context entries:", field(1, Field::CONTEXT_ENTRIES))?;
    reading(
        rt,
        "Dci 3, max packet size:",
        field(4, Field::MAX_PACKET_SIZE),
    )?;
    reading(rt, "block 33:", field(33, Field::MAX_PACKET_SIZE))?;
    let elsewhere = context_view::input_field(c.bytes, other, 1, Field::CONTEXT_ENTRIES);
    reading(rt, "at the other spacing:", elsewhere)
}
