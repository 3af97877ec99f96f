// Each step that writes a context, with the blocks that it touches and one that it does not.
use super::memory::Context;
use super::show;
use hub::Translator;
use std::io;

// Address of a Full speed device on port 20 of a High hub, over contents that are not zero.
pub fn address(rt: &impl Print, c: &mut Context) -> io::Result<()> {
    let t = Translator {
        slot_id: 5,
        multi: true,
        port: 20,
    };
    context_writer::address_context(c.bytes, c.spacing, def::FULL, 0xf4, t, 3, 0x1_2345_6780);
    println!(rt; "Address")?;
    show::block(rt, "control:", c, 0)?;
    show::block(rt, "slot:", c, 1)?;
    show::block(rt, "Dci 1:", c, 2)?;
    show::block(rt, "Dci 31:", c, 32)
}

#[tactic(auto, unfolding(def::specs::Speed::exponent_ok, def::specs::Speed::is_super))]
pub fn header(rt: &impl Print, c: &mut Context) -> io::Result<()> {
    context_writer::setup_max_packet(c.bytes, c.spacing, def::FULL, 0);
    println!(rt; "header byte 0")?;
    show::block(rt, "control:", c, 0)?;
    show::block(rt, "Dci 1:", c, 2)?;
    show::block(rt, "Dci 31:", c, 32)
}

// 0x81, interrupt, size 64, packets 1, interval 4.
const INTERRUPT: u64 = 0xa384_0410;

// 0x02, bulk, size 512.
const BULK: u64 = 0x8520_0000;

// 0x83, isochronous, size 1023, packets 3, interval 1.
const ISOCHRONOUS: u64 = 0xa6bf_fc04;

// Document 01's Dci 3 case where the block is zero.
pub fn claim_one(rt: &impl Print, c: &mut Context) -> io::Result<()> {
    context_writer::prepare_configure_context(
        c.bytes,
        c.spacing,
        def::HIGH,
        0,
        1,
        &[0u64; 0],
        &[INTERRUPT],
        &[3],
        &[0x2000],
        &[0u8; 0],
    );
    println!(rt; "claim of 0x81, interrupt")?;
    show::block(rt, "control:", c, 0)?;
    show::block(rt, "slot:", c, 1)?;
    show::block(rt, "Dci 3:", c, 4)
}

pub fn claim_two(rt: &impl Print, c: &mut Context) -> io::Result<()> {
    context_writer::prepare_configure_context(
        c.bytes,
        c.spacing,
        def::HIGH,
        0,
        2,
        &[INTERRUPT],
        &[BULK, ISOCHRONOUS],
        &[4, 7],
        &[0x3000, 0x4000],
        &[3],
    );
    println!(rt; "claim of 0x02, bulk, and 0x83, isochronous, for 0x81")?;
    show::block(rt, "control:", c, 0)?;
    show::block(rt, "slot:", c, 1)?;
    show::block(rt, "Dci 3:", c, 4)?;
    show::block(rt, "Dci 4:", c, 5)?;
    show::block(rt, "Dci 7:", c, 8)
}

pub fn configuration(rt: &impl Print, c: &mut Context) -> io::Result<()> {
    context_writer::configuration_context(c.bytes, 9);
    println!(rt; "configuration 9")?;
    show::block(rt, "control:", c, 0)
}

pub fn hub(rt: &impl Print, c: &mut Context, speed: u8, think: u8) -> io::Result<()> {
    context_writer::hub_context(c.bytes, c.spacing, speed, 4, false, think);
    println!(rt; "hub of 4 ports, not multi")?;
    show::block(rt, "slot:", c, 1)?;
    show::block(rt, "Dci 31:", c, 32)
}
