// The route table: registering, replacing, and each refusal.
use def::{Dci, SlotId};
use std::io;
use transfer::RouteError;

// What came of it, and the words of Dcis 1 to 4 of slot 1.
fn routed(
    rt: &impl Print,
    label: &str,
    r: Result<(), RouteError>,
    routes: [u64; 64],
) -> io::Result<()> {
    let outcome = match r {
        Ok(()) => "done",
        Err(RouteError::InvalidEndpoint) => "invalid endpoint",
        Err(RouteError::QueueFull) => "queue full",
    };
    print!(rt; "{label} {outcome};")?;
    for word in &routes[33..37] {
        print!(rt; " 0x{word:x}")?;
    }
    println!(rt; "")
}

pub fn table(rt: &impl Print) -> io::Result<()> {
    let mut routes = [0u64; 64];
    let first = transfer::register_queue(&mut routes, SlotId(1), Dci::CTRL, 0x1000);
    routed(rt, "register Dci 1:", first, routes)?;
    let again = transfer::register_queue(&mut routes, SlotId(1), Dci::CTRL, 0x2000);
    routed(rt, "register Dci 1 again:", again, routes)
}

// Replaces two endpoints by two others in a table where Dcis 1 to 3 are taken. Dcis and rings stand apart, as `replace_queues` takes them.
fn replace(
    rt: &impl Print,
    label: &str,
    old: [u8; 2],
    old_rings: [u64; 2],
    new: [u8; 2],
    new_rings: [u64; 2],
) -> io::Result<()> {
    let mut routes = [0u64; 64];
    routes[33] = 0x1000;
    routes[34] = 0x20;
    routes[35] = 0x30;
    let r = transfer::replace_queues(&mut routes, SlotId(1), &old, &old_rings, &new, &new_rings);
    routed(rt, label, r, routes)
}

pub fn replacements(rt: &impl Print) -> io::Result<()> {
    replace(
        rt,
        "3 and 4 for 2 and 3:",
        [2, 3],
        [0x20, 0x30],
        [3, 4],
        [0x40, 0x50],
    )?;
    replace(
        rt,
        "an old ring that is not there:",
        [2, 3],
        [0x20, 0x40],
        [3, 4],
        [0x40, 0x50],
    )?;
    replace(
        rt,
        "a new Dci that is taken:",
        [2, 2],
        [0x20, 0x20],
        [3, 4],
        [0x40, 0x50],
    )?;
    replace(
        rt,
        "a new Dci that has its ring already:",
        [2, 2],
        [0x20, 0x20],
        [3, 4],
        [0x30, 0x50],
    )
}
