// Valid lists, lists refused for each reason, lists at each limit, and lookup.
use super::yes_or_no;
use descriptor_list::{EndpointWords, LIST_ROOM};
use std::io;

// Configuration 1, alternate 0 of interface 0, and a bulk endpoint of address 0x01.
const CONFIGURATION: u32 = 0x0040_0000;

const ALTERNATE: u32 = 0x4000_0000;

const BULK: u32 = 0x8300_0000;

// A companion of burst 5, and one with mult 1 besides.
const COMPANION: u32 = 0xd400_0000;

const MULT: u32 = 0xd500_0000;

fn alternate(interface: u8, setting: u8) -> u32 {
    0x4000_0000 + (interface as u32) * 0x40_0000 + (setting as u32) * 0x4000
}

// An endpoint word, with a parameter for each field; what does not fit one is cut.
pub fn endpoint(input: u32, number: u32, kind: u32, size: u32, packets: u32, interval: u32) -> u32 {
    0x8000_0000
        + input % 2 * 0x2000_0000
        + number % 16 * 0x200_0000
        + kind % 4 * 0x80_0000
        + size % 2048 * 0x1000
        + packets % 4 * 0x400
        + interval % 256 * 4
}

// Whether a list is valid at High speed, after its description.
fn case(rt: &impl Print, label: &str, list: &[u32]) -> io::Result<()> {
    println!(rt;
        "{label} {}",
        yes_or_no(descriptor_list::list_ok(list, def::HIGH))
    )
}

// Whether a list passes for 4, and whether for 26, at a speed.
fn case_at(rt: &impl Print, label: &str, speed: u8, list: &[u32]) -> io::Result<()> {
    let passes = yes_or_no(descriptor_list::list_ok(list, speed));
    let fits = yes_or_no(descriptor_list::companions_fit(list, speed));
    println!(rt; "{label} {passes} {fits}")
}

pub fn valid(rt: &impl Print) -> io::Result<()> {
    case(rt, "empty list:", &[0u32; 0])?;
    case(
        rt,
        "a configuration, an alternate, an endpoint:",
        &[CONFIGURATION, ALTERNATE, BULK],
    )?;
    case(rt, "a configuration alone:", &[CONFIGURATION])?;
    case(
        rt,
        "one address twice in an alternate:",
        &[CONFIGURATION, ALTERNATE, BULK, BULK],
    )?;
    case(
        rt,
        "one alternate twice:",
        &[CONFIGURATION, ALTERNATE, ALTERNATE],
    )
}

pub fn refused(rt: &impl Print) -> io::Result<()> {
    refused_endpoints(rt)?;
    refused_words(rt)
}

fn refused_endpoints(rt: &impl Print) -> io::Result<()> {
    case(rt, "begins with an alternate:", &[ALTERNATE])?;
    case(
        rt,
        "endpoint after a configuration:",
        &[CONFIGURATION, ALTERNATE, CONFIGURATION, BULK],
    )?;
    case(
        rt,
        "number 0:",
        &[CONFIGURATION, ALTERNATE, endpoint(0, 0, 2, 64, 0, 0)],
    )?;
    case(
        rt,
        "type 0:",
        &[CONFIGURATION, ALTERNATE, endpoint(0, 1, 0, 64, 0, 0)],
    )?;
    case(
        rt,
        "IN 15:",
        &[CONFIGURATION, ALTERNATE, endpoint(1, 15, 2, 64, 0, 0)],
    )
}

fn refused_words(rt: &impl Print) -> io::Result<()> {
    case(rt, "kind 3:", &[CONFIGURATION, 0xc000_0000])?;
    case(
        rt,
        "unused bit of a configuration:",
        &[CONFIGURATION + 0x20_0000],
    )?;
    case(
        rt,
        "unused bit of an alternate:",
        &[CONFIGURATION, ALTERNATE + 0x2000],
    )?;
    case(
        rt,
        "unused bit of an endpoint:",
        &[CONFIGURATION, ALTERNATE, BULK + 2],
    )
}

pub fn limits(rt: &impl Print) -> io::Result<()> {
    word_limit(rt)?;
    configuration_limit(rt)?;
    endpoint_limit(rt)?;
    interface_limit(rt)
}

fn word_limit(rt: &impl Print) -> io::Result<()> {
    let mut words = [ALTERNATE; 257];
    words[0] = CONFIGURATION;
    case(rt, "256 words:", &words[0..256])?;
    case(rt, "257 words:", &words)
}

fn configuration_limit(rt: &impl Print) -> io::Result<()> {
    let configurations = [CONFIGURATION; 9];
    case(rt, "8 configurations:", &configurations[0..8])?;
    case(rt, "9 configurations:", &configurations)
}

fn endpoint_limit(rt: &impl Print) -> io::Result<()> {
    let mut run = [BULK; 33];
    run[0] = CONFIGURATION;
    run[1] = ALTERNATE;
    case(rt, "30 endpoints in an alternate:", &run[0..32])?;
    case(rt, "31 endpoints in an alternate:", &run)
}

fn interface_limit(rt: &impl Print) -> io::Result<()> {
    let mut interfaces = [CONFIGURATION; 34];
    for i in 0..33 {
        interfaces[i + 1] = alternate(i as u8, 0);
    }
    case(rt, "32 interfaces:", &interfaces[0..33])?;
    case(rt, "33 interfaces:", &interfaces)
}

pub fn companions(rt: &impl Print) -> io::Result<()> {
    let isochronous = endpoint(1, 1, 1, 1024, 1, 1);
    println!(rt; "at a speed: passes for 4, and for 26")?;
    for speed in def::FULL..=def::SUPER_PLUS {
        print!(rt; "speed {speed}")?;
        let bulk = [CONFIGURATION, ALTERNATE, BULK, COMPANION];
        case_at(rt, ", a companion:", speed, &bulk)?;
        case_at(rt, "  none:", speed, &bulk[0..3])?;
    }
    let super_case = |label: &str, list: &[u32]| case_at(rt, label, def::SUPER, list);
    super_case("a companion first:", &[COMPANION])?;
    super_case("behind a configuration:", &[CONFIGURATION, COMPANION])?;
    super_case(
        "two:",
        &[CONFIGURATION, ALTERNATE, BULK, COMPANION, COMPANION],
    )?;
    super_case(
        "mult of a bulk endpoint:",
        &[CONFIGURATION, ALTERNATE, BULK, MULT],
    )?;
    super_case(
        "of an isochronous one:",
        &[CONFIGURATION, ALTERNATE, isochronous, MULT],
    )?;
    super_case(
        "3 of it:",
        &[CONFIGURATION, ALTERNATE, isochronous, MULT + 0x200_0000],
    )?;
    super_case(
        "an unused bit:",
        &[CONFIGURATION, ALTERNATE, BULK, COMPANION + 1],
    )
}

fn find(rt: &impl Print, label: &str, list: &[u64], interface: u8, setting: u8) -> io::Result<()> {
    match descriptor_list::find_interface_endpoints(list, interface, setting) {
        Some(EndpointWords { start, count }) => println!(rt; "{label} {start} {count}"),
        None => println!(rt; "{label} not found"),
    }
}

pub fn lookup(rt: &impl Print) -> io::Result<()> {
    let words = [
        CONFIGURATION,
        ALTERNATE,
        BULK,
        COMPANION,
        alternate(0, 1),
        BULK,
        BULK,
        CONFIGURATION,
        alternate(0, 1),
        alternate(7, 0),
    ];
    let mut all = [0; LIST_ROOM];
    let count = descriptor_list::join(&words, &mut all);
    let list = &all[..count];
    find(rt, "interface 0, alternate 0:", list, 0, 0)?;
    find(
        rt,
        "interface 0, alternate 1, the first of two:",
        list,
        0,
        1,
    )?;
    find(
        rt,
        "interface 7, alternate 0, of another configuration:",
        list,
        7,
        0,
    )?;
    find(rt, "interface 7, alternate 1:", list, 7, 1)
}
