// The Endpoint Context: what each step makes of its block (context.rs and device.rs of the original).
ghost use Rattle.std.specs.Prelude.{◌≡◌, ◌∷◌, length};
ghost use Rattle.context_block.specs.Fields.{CERR, EP-TYPE, MAX-PACKET-SIZE};
ghost use Rattle.context_block.specs.FieldWrite.{◌:=◌, fields_written};
ghost use Rattle.context_block.specs.Blocks.{ring_fields, address_endpoint, plain_fields, companion_fields, endpoint_fields};

use context_field::Field;
use descriptor::{EndpointDescriptor, TransferType};

// What every endpoint's block gets: its kind, its packet size, and its ring with the cycle state of a new ring.
#[tactic(auto, unfolding(context_block::specs::FieldWrite::fields_written, context_block::specs::Blocks::ring_fields))]
fn put_common(block: &mut [u8], errors: u64, kind: u64, packet: u64, ring: u64)
    requires { length block.old ≡ 32 }
    ensures { block.new ≡ fields_written ((CERR := errors) ∷ (EP-TYPE := kind) ∷ (MAX-PACKET-SIZE := packet) ∷ ring_fields ring) block.old }
{
    context_field::put_field(block, Field::CERR, errors);
    context_field::put_field(block, Field::EP_TYPE, kind);
    context_field::put_field(block, Field::MAX_PACKET_SIZE, packet);
    context_field::put_field(block, Field::TR_DEQUEUE_POINTER_LO, ring / 0x10);
    context_field::put_field(block, Field::TR_DEQUEUE_POINTER_HI, ring / 0x1_0000_0000);
    context_field::put_field(block, Field::DCS, 1);
}

// The control endpoint that Address is given, over a block that is all 0.
pub fn address_endpoint(block: &mut [u8], speed: u8, ring: u64)
    requires { length block.old ≡ 32 }
    ensures { block.new ≡ fields_written (address_endpoint speed ring) block.old }
{
    let first_size = def::parse_default_max_packet_size_from_port_speed(speed);
    put_common(block, 3, 4, first_size as u64, ring);
    context_field::put_field(block, Field::AVERAGE_TRB_LENGTH, 8);
}

// What its packets per microframe give an endpoint's block.
#[tactic(auto, unfolding(context_block::specs::FieldWrite::fields_written, context_block::specs::Blocks::periodic_fields, context_block::specs::Blocks::plain_fields, context_block::specs::Blocks::burst_of))]
fn put_plain(block: &mut [u8], e: EndpointDescriptor, speed: u8)
    requires { length block.old ≡ 32 }
    ensures { block.new ≡ fields_written (plain_fields speed e) block.old }
{
    let t = e.transfer_type;
    if descriptor_periodic::is_periodic(t) {
        let burst = descriptor_periodic::periodic_burst_size(t, e.packets_per_microframe, speed);
        let payload = descriptor_periodic::max_esit_payload(e.max_packet_size, burst) as u64;
        context_field::put_field(block, Field::MAX_BURST_SIZE, burst as u64);
        context_field::put_field(block, Field::MULT, 0);
        context_field::put_field(block, Field::AVERAGE_TRB_LENGTH, payload);
        context_field::put_field(block, Field::MAX_ESIT_PAYLOAD_LO, payload);
    }
}

// What its companion gives it.
#[tactic(auto, unfolding(context_block::specs::FieldWrite::fields_written, context_block::specs::Blocks::companion_fields))]
fn put_companion(block: &mut [u8], e: EndpointDescriptor)
    requires { length block.old ≡ 32 }
    ensures { block.new ≡ fields_written (companion_fields e) block.old }
{
    context_field::put_field(block, Field::MAX_BURST_SIZE, e.burst as u64);
    if descriptor_periodic::is_periodic(e.transfer_type) {
        let bytes = e.bytes_per_interval as u64;
        context_field::put_field(block, Field::MULT, e.mult as u64);
        context_field::put_field(block, Field::MAX_ESIT_PAYLOAD_HI, 0);
        context_field::put_field(block, Field::AVERAGE_TRB_LENGTH, bytes);
        context_field::put_field(block, Field::MAX_ESIT_PAYLOAD_LO, bytes);
    }
}

// An endpoint's block, from its descriptor and its ring. Other fields keep what they hold.
#[tactic(auto, using(context_block::proofs::Laws::fields_written_append), unfolding(context_block::specs::FieldWrite::fields_written, context_block::specs::Blocks::endpoint_fields, context_block::specs::Blocks::basic_fields, context_block::specs::Blocks::error_count))]
pub fn put_endpoint(block: &mut [u8], e: EndpointDescriptor, speed: u8, ring: u64)
    requires { length block.old ≡ 32 }
    ensures { block.new ≡ fields_written (endpoint_fields speed e ring) block.old }
{
    let t = e.transfer_type;
    let interval = descriptor_periodic::calculate_xhci_interval(e.interval, t, speed);
    let kind = descriptor_periodic::endpoint_type(t, e.address);
    let errors = match t {
        TransferType::Isochronous => 0,
        _ => 3,
    };
    context_field::put_field(block, Field::INTERVAL, interval as u64);
    put_common(block, errors, kind as u64, e.max_packet_size as u64, ring);
    if def::is_super(speed) {
        put_companion(block, e);
    } else {
        put_plain(block, e, speed);
    }
}
