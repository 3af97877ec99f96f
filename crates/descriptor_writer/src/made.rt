// The descriptors of words.
ghost use Rattle.std.specs.Prelude.{◌≤◌, ◌<◌, ◌≡◌};
ghost use Rattle.descriptor.specs.Word.{type_number, companion_burst, companion_mult, companion_bytes, endpoint_descriptor};
ghost use Rattle.descriptor_raw.specs.Write.{configuration_descriptor, interface_descriptor, endpoint_bytes, companion_descriptor, word_packets};

use descriptor_raw::{place, size};

// The packets per microframe in the packet size field.
const PACKETS_LSB: u16 = place::PACKETS_LSB as u16;

// Bit 7 of a configuration's attributes is always set.
const RESERVED_ONE: u8 = 0x80;

pub fn configuration_descriptor(total: usize, interfaces: usize, value: u8) -> [u8; 9]
    requires { (total < 65536) × (interfaces < 256) }
    ensures { result ≡ configuration_descriptor total interfaces value }
{
    let [low, high] = (total as u16).to_le_bytes();
    [
        size::CONFIGURATION as u8,
        descriptor_raw::CONFIGURATION,
        low,
        high,
        interfaces as u8,
        value,
        0,
        RESERVED_ONE,
        0,
    ]
}

pub fn interface_descriptor(interface: u8, alternate: u8, endpoints: usize) -> [u8; 9]
    requires { endpoints < 256 }
    ensures { result ≡ interface_descriptor interface alternate endpoints }
{
    [
        size::INTERFACE as u8,
        descriptor_raw::INTERFACE,
        interface,
        alternate,
        endpoints as u8,
        0,
        0,
        0,
        0,
    ]
}

fn endpoint_bytes(address: u8, kind: u8, packet: u16, interval: u8) -> [u8; 7]
    ensures { result ≡ endpoint_bytes address kind packet interval }
{
    let [low, high] = packet.to_le_bytes();
    [
        size::ENDPOINT as u8,
        descriptor_raw::ENDPOINT,
        address,
        kind,
        low,
        high,
        interval,
    ]
}

// Of an endpoint word.
pub fn endpoint_of(w: u64) -> [u8; 7]
    requires { 1 ≤ (endpoint_descriptor w).packets_per_microframe }
    ensures { result ≡ endpoint_bytes (endpoint_descriptor w).address (type_number w) (word_packets w) (endpoint_descriptor w).interval }
{
    let e = descriptor::endpoint_descriptor(w);
    let kind = (w / descriptor::TYPE_LSB % 4) as u8;
    let packets = e.packets_per_microframe as u16;
    let packet = e.max_packet_size + PACKETS_LSB * (packets - 1);
    endpoint_bytes(e.address, kind, packet, e.interval)
}

fn companion_descriptor(burst: u8, mult: u8, per_interval: u16) -> [u8; 6]
    ensures { result ≡ companion_descriptor burst mult per_interval }
{
    let [low, high] = per_interval.to_le_bytes();
    [
        size::COMPANION as u8,
        descriptor_raw::COMPANION,
        burst,
        mult,
        low,
        high,
    ]
}

// Of a companion's word.
#[tactic(auto, unfolding(descriptor::specs::Word::companion_burst, descriptor::specs::Word::companion_bytes))]
pub fn companion_of(w: u64) -> [u8; 6]
    ensures { result ≡ companion_descriptor (companion_burst w) (companion_mult w) (companion_bytes w) }
{
    companion_descriptor(
        (w / descriptor::BURST_LSB % 16) as u8,
        descriptor::companion_mult(w),
        (w / descriptor::BYTES_LSB % 65536) as u16,
    )
}
