// Packet sizes, intervals, Dcis, types, bursts and payloads.
use super::list::endpoint;
use super::yes_or_no;
use descriptor::TransferType;
use std::io;

fn header_size(rt: &impl Print, speed: u8, byte: u8) -> io::Result<()> {
    if def::exponent_ok(speed, byte) {
        print!(rt; " {}", def::header_packet_size(speed, byte))
    } else {
        print!(rt; " none")
    }
}

fn header_sizes(rt: &impl Print, label: &str, speed: u8) -> io::Result<()> {
    print!(rt; "{label}")?;
    for byte in [0, 8, 9, 64, 255] {
        header_size(rt, speed, byte)?;
    }
    println!(rt; "")
}

fn first_sizes(rt: &impl Print) -> io::Result<()> {
    print!(rt; "first packet sizes at speeds 0 to 6:")?;
    for speed in 0..=6 {
        let size = def::parse_default_max_packet_size_from_port_speed(speed);
        print!(rt; " {size}")?;
    }
    println!(rt; "")
}

fn known_speeds(rt: &impl Print) -> io::Result<()> {
    print!(rt; "speeds 0, 1, 5 and 6 are known:")?;
    for speed in [0, 1, 5, 6] {
        print!(rt; " {}", yes_or_no(def::speed_known(speed)))?;
    }
    println!(rt; "")
}

pub fn packet_sizes(rt: &impl Print) -> io::Result<()> {
    first_sizes(rt)?;
    known_speeds(rt)?;
    header_sizes(
        rt,
        "packet sizes of header bytes 0, 8, 9, 64, 255:",
        def::HIGH,
    )?;
    header_sizes(rt, "  at SuperSpeed:", def::SUPER)?;
    header_sizes(rt, "  at SuperSpeedPlus:", def::SUPER_PLUS)
}

fn interval_line(rt: &impl Print, label: &str, t: TransferType, speed: u8) -> io::Result<()> {
    print!(rt; "{label}")?;
    for byte in [0, 1, 2, 3, 16, 17, 255] {
        let interval = descriptor_periodic::calculate_xhci_interval(byte, t, speed);
        print!(rt; " {interval}")?;
    }
    println!(rt; "")
}

fn intervals_at(rt: &impl Print, speed: u8) -> io::Result<()> {
    print!(rt; "speed {speed}")?;
    interval_line(rt, ", interrupt:", TransferType::Interrupt, speed)?;
    interval_line(rt, "  isochronous:", TransferType::Isochronous, speed)?;
    interval_line(rt, "  bulk:", TransferType::Bulk, speed)
}

pub fn intervals(rt: &impl Print) -> io::Result<()> {
    println!(rt; "intervals of bytes 0, 1, 2, 3, 16, 17, 255")?;
    for speed in def::FULL..=def::SUPER_PLUS {
        intervals_at(rt, speed)?;
    }
    Ok(())
}

// Address, Dci, EP type, interval, packet size, burst and payload of an endpoint word at a speed.
fn endpoint_line(rt: &impl Print, w: u32, speed: u8) -> io::Result<()> {
    let e = descriptor::endpoint_descriptor(u64::from(w));
    let t = e.transfer_type;
    let dci = descriptor::endpoint_address_dci(e.address);
    let kind = descriptor_periodic::endpoint_type(t, e.address);
    let interval = descriptor_periodic::calculate_xhci_interval(e.interval, t, speed);
    let size = e.max_packet_size;
    let burst = descriptor_periodic::periodic_burst_size(t, e.packets_per_microframe, speed);
    let payload = descriptor_periodic::max_esit_payload(size, burst);
    println!(rt;
        "endpoint: 0x{:x} {} {kind} {interval} {size} {burst} {payload}",
        e.address, dci.0
    )
}

pub fn endpoints(rt: &impl Print) -> io::Result<()> {
    println!(rt; "address, Dci, EP type, interval, packet size, burst, payload")?;
    let lines = [
        (endpoint(1, 1, 3, 64, 1, 4), def::HIGH),
        (endpoint(1, 1, 3, 64, 0, 4), def::HIGH),
        (endpoint(0, 2, 1, 1024, 3, 1), def::HIGH),
        (endpoint(0, 2, 1, 1024, 3, 1), def::SUPER),
        (endpoint(1, 2, 2, 512, 3, 0), def::HIGH),
        (endpoint(0, 15, 2, 512, 0, 0), def::HIGH),
        (endpoint(1, 14, 3, 8, 0, 10), def::LOW),
    ];
    for (w, speed) in lines {
        endpoint_line(rt, w, speed)?;
    }
    print!(rt; "Dcis of addresses 0x01, 0x81, 0x0f, 0x8f:")?;
    for address in [0x01, 0x81, 0x0f, 0x8f] {
        print!(rt; " {}", descriptor::endpoint_address_dci(address).0)?;
    }
    println!(rt; "")
}
