// What descriptors say of those after them: total lengths and counts.
ghost use Rattle.std.specs.Prelude.{◌≤◌, ◌≡◌, length};
ghost use Rattle.descriptor_raw.specs.Claims.{bytes_after, interfaces_after, endpoints_after};
ghost use Rattle.descriptor_raw.specs.Read.{descriptors, borne_out, all_borne_out};

use super::cut::{Descriptor, Descriptors};
use descriptor_raw::{DescriptorKind, Marks, place};

// How many bytes there are before the next configuration.
fn count_bytes(after: Descriptors) -> usize
    ensures { (result ≡ bytes_after (descriptors after.entry.bytes.now)) × (result ≤ length after.entry.bytes.now) }
{
    after
        .take_while(|d| d.kind() != DescriptorKind::Configuration)
        .map(|d| d.bytes.len())
        .sum()
}

// How many distinct interfaces there are before the next configuration.
#[tactic(auto, using(crate::proofs::Judged::long_interface))]
fn count_interfaces(after: Descriptors) -> usize
    ensures { result ≡ interfaces_after (descriptors after.entry.bytes.now) }
{
    let mut marks = Marks::NONE;
    for d in after {
        match d.kind() {
            DescriptorKind::Configuration => {
                return marks.count;
            }
            DescriptorKind::Interface => marks.mark(d.bytes[place::INTERFACE_NUMBER]),
            _ => {}
        }
    }
    marks.count
}

// How many endpoints there are before the next interface or configuration.
fn count_endpoints(after: Descriptors) -> usize
    ensures { result ≡ endpoints_after (descriptors after.entry.bytes.now) }
{
    after
        .take_while(|d| d.kind() != DescriptorKind::Configuration
            && d.kind() != DescriptorKind::Interface)
        .filter(|d| d.kind() == DescriptorKind::Endpoint)
        .count()
}

// Whether what a descriptor says of those after it is so.
#[tactic(auto, using(crate::proofs::Judged::long_configuration, crate::proofs::Judged::long_interface, crate::proofs::Judged::long_endpoint))]
fn borne_out(d: Descriptor, after: Descriptors) -> bool
    ensures { result ≡ borne_out d.entry.bytes.now (descriptors after.entry.bytes.now) }
{
    match d.kind() {
        DescriptorKind::Configuration => {
            d.two_bytes(place::TOTAL_LENGTH) as usize == d.bytes.len() + count_bytes(after)
                && d.bytes[place::NUM_INTERFACES] as usize == count_interfaces(after)
        }
        DescriptorKind::Interface => {
            d.bytes[place::NUM_ENDPOINTS] as usize == count_endpoints(after)
        }
        DescriptorKind::Endpoint => {
            d.two_bytes(place::MAX_PACKET_SIZE) as usize / place::PACKETS_LSB % 4 != 3
        }
        _ => true,
    }
}

pub fn all_borne_out(all: Descriptors) -> bool
    ensures { result ≡ all_borne_out (descriptors all.entry.bytes.now) }
{
    let mut after = all;
    while let Some(d) = after.next() {
        if !borne_out(d, after) {
            return false;
        }
    }
    true
}
