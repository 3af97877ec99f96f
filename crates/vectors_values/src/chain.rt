// Chains of hubs accepted, and refused for each reason; routes, translators and think times.
use super::yes_or_no;
use std::io;

const PRESENT: u64 = 0x8000_0000_0000_0000;

// A present hub with a parent; what does not fit a field is cut.
fn child(parent: u64, slot: u64, depth_plus_one: u64, speed: u64, port: u64) -> u64 {
    0xc000_0000_0000_0000
        + parent % 256 * 0x40_0000_0000_0000
        + slot % 256 * 0x4000_0000_0000
        + depth_plus_one % 8 * 0x800_0000_0000
        + speed % 8 * 0x100_0000_0000
        + port % 256 * 0x1_0000_0000
}

// A root hub at High speed.
const ROOT: u64 = 0x8000_0300_0000_0000;

// A High hub of depth 1 with several translators, slot 7, on port 2 of the hub at index 1.
const MULTI: u64 = 0xc041d30280000000;

// A hub of depth 0 that has no parent.
const ORPHAN: u64 = 0x80004b0100000000;

fn alone(rt: &impl Print) -> io::Result<()> {
    let verdict = yes_or_no(hub::chain_ok(&[ROOT], None));
    let route = hub::route_string(&[ROOT], None, 7);
    println!(rt; "no parent: {verdict} 0x{route:x}")
}

// The verdict on a chain, then route, and slot, multi and port of the translator of a Full speed device.
fn chain_line(
    rt: &impl Print,
    label: &str,
    hubs: &[u64],
    parent: usize,
    port: u8,
) -> io::Result<()> {
    let verdict = yes_or_no(hub::chain_ok(hubs, Some(parent)));
    let route = hub::route_string(hubs, Some(parent), port);
    let t = hub::transaction_translator(def::FULL, hubs, Some(parent), port);
    let multi = yes_or_no(t.multi);
    println!(rt;
        "{label} {verdict} 0x{route:x} {} {multi} {}",
        t.slot_id, t.port
    )
}

pub fn accepted(rt: &impl Print) -> io::Result<()> {
    println!(rt; "verdict, route, translator's slot, multi, port")?;
    shallow(rt)?;
    deep(rt)?;
    alone(rt)
}

fn shallow(rt: &impl Print) -> io::Result<()> {
    let hubs = [ROOT, child(0, 5, 1, 3, 4), child(1, 6, 2, 1, 200), MULTI];
    chain_line(rt, "on the root hub:", &hubs, 0, 7)?;
    chain_line(rt, "on a hub of depth 0:", &hubs, 1, 7)?;
    chain_line(rt, "on a Full hub of depth 1 on port 200:", &hubs, 2, 20)?;
    chain_line(rt, "on a High hub of depth 1, multi:", &hubs, 3, 20)
}

fn deep(rt: &impl Print) -> io::Result<()> {
    let hubs = [
        ROOT,
        child(0, 1, 1, 1, 1),
        child(1, 2, 2, 1, 2),
        child(2, 3, 3, 1, 3),
        child(3, 4, 4, 1, 4),
        child(4, 5, 5, 1, 5),
    ];
    chain_line(rt, "on a hub of depth 4:", &hubs, 5, 15)
}

fn refusal(rt: &impl Print, label: &str, hubs: &[u64], parent: usize) -> io::Result<()> {
    println!(rt; "{label} {}", yes_or_no(hub::chain_ok(hubs, Some(parent))))
}

pub fn refused(rt: &impl Print) -> io::Result<()> {
    refused_hubs(rt)?;
    refused_depths(rt)?;
    too_many(rt)
}

fn refused_hubs(rt: &impl Print) -> io::Result<()> {
    refusal(rt, "not in the list:", &[ROOT], 1)?;
    refusal(rt, "not present:", &[ROOT - PRESENT], 0)?;
    refusal(rt, "speed 0:", &[PRESENT], 0)?;
    refusal(rt, "speed 6:", &[0x8000_0600_0000_0000], 0)?;
    refusal(rt, "unused bit:", &[ROOT + 1], 0)
}

fn refused_depths(rt: &impl Print) -> io::Result<()> {
    refusal(rt, "depth 5:", &[ROOT, child(0, 1, 6, 3, 1)], 1)?;
    refusal(
        rt,
        "parent's depth not one less:",
        &[ROOT, child(0, 1, 2, 3, 1)],
        1,
    )?;
    refusal(rt, "depth 0 without a parent:", &[ORPHAN], 0)?;
    refusal(rt, "its own parent:", &[child(0, 1, 1, 3, 1)], 0)?;
    refusal(
        rt,
        "root hub not present:",
        &[ROOT - PRESENT, child(0, 1, 1, 3, 1)],
        1,
    )
}

fn too_many(rt: &impl Print) -> io::Result<()> {
    let hubs = [ROOT; 257];
    refusal(rt, "256 hubs:", &hubs[0..256], 0)?;
    refusal(rt, "257 hubs:", &hubs, 0)?;
    println!(rt;
        "257 hubs, no parent: {}",
        yes_or_no(hub::chain_ok(&hubs, None))
    )
}

fn think(rt: &impl Print, ns: u32) -> io::Result<()> {
    match hub::think_time(ns) {
        Some(v) => print!(rt; " {v}"),
        None => print!(rt; " refused"),
    }
}

pub fn think_times(rt: &impl Print) -> io::Result<()> {
    print!(rt; "think times of 0, 1, 665, 666, 1331, 1332, 3329, 3330 ns:")?;
    for ns in [0, 1, 665, 666, 1331, 1332, 3329, 3330] {
        think(rt, ns)?;
    }
    println!(rt; "")
}
