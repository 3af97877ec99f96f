// What an endpoint's descriptor says of its type, interval, burst and payload (device.rs and endpoint.rs of the original).
#![tactic(auto)]

ghost use Rattle.std.specs.Prelude.{◌≡◌};
ghost use Rattle.descriptor.specs.Endpoint.{endpoint_type, periodic_interval, isochronous_interval, xhci_interval, is_periodic, periodic_burst, esit_payload};

use descriptor::TransferType;

// EP Type of an endpoint's context.
#[tactic(auto, unfolding(descriptor::specs::Endpoint::endpoint_type))]
pub fn endpoint_type(t: TransferType, address: u8) -> u8
    ensures { result ≡ endpoint_type t address }
{
    let input = 4 * (address / 128);
    match t {
        TransferType::Control => 4,
        TransferType::Isochronous => 1 + input,
        TransferType::Bulk => 2 + input,
        TransferType::Interrupt => 3 + input,
    }
}

#[tactic(auto, unfolding(descriptor::specs::Endpoint::is_periodic))]
pub fn is_periodic(t: TransferType) -> bool
    ensures { result ≡ is_periodic t }
{
    matches!(t, TransferType::Isochronous | TransferType::Interrupt)
}

// From bInterval: at speeds 3 to 5 an exponent; at the others its `ilog2` comes from the count of leading zeros.
#[tactic(auto, using(descriptor::proofs::Laws::interval_exponent, descriptor::proofs::Laws::interval_zeros))]
fn periodic_interval(byte: u8, port_speed: u8) -> u8
    ensures { result ≡ periodic_interval byte port_speed }
{
    match port_speed {
        def::HIGH..=def::SUPER_PLUS => byte.clamp(1, 16) - 1,
        _ => 10 - byte.max(1).leading_zeros() as u8,
    }
}

// Of an isochronous endpoint bInterval is an exponent at Full speed too, there of milliseconds.
#[tactic(auto, unfolding(descriptor::specs::Endpoint::isochronous_interval, descriptor::specs::Endpoint::held_exponent))]
fn isochronous_interval(byte: u8, port_speed: u8) -> u8
    ensures { result ≡ isochronous_interval byte port_speed }
{
    if port_speed == def::FULL {
        byte.clamp(1, 16) + 2
    } else {
        periodic_interval(byte, port_speed)
    }
}

// Interval of an endpoint's context.
#[tactic(auto, unfolding(descriptor::specs::Endpoint::xhci_interval))]
pub fn calculate_xhci_interval(byte: u8, t: TransferType, port_speed: u8) -> u8
    ensures { result ≡ xhci_interval byte t port_speed }
{
    match t {
        TransferType::Isochronous => isochronous_interval(byte, port_speed),
        TransferType::Interrupt => periodic_interval(byte, port_speed),
        _ => byte,
    }
}

// Max Burst Size of a periodic endpoint.
#[tactic(auto, unfolding(descriptor::specs::Endpoint::periodic_burst))]
pub fn periodic_burst_size(t: TransferType, packets: u8, port_speed: u8) -> u8
    ensures { result ≡ periodic_burst t packets port_speed }
{
    if is_periodic(t) && port_speed == def::HIGH {
        packets.saturating_sub(1)
    } else {
        0
    }
}

// Max ESIT Payload and Average TRB Length of a periodic endpoint.
#[tactic(auto, unfolding(descriptor::specs::Endpoint::esit_payload))]
pub fn max_esit_payload(max_packet_size: u16, burst: u8) -> u16
    ensures { result ≡ esit_payload max_packet_size burst }
{
    max_packet_size.saturating_mul(burst as u16 + 1)
}
