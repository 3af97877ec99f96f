// Descriptor words, and the Dci of an endpoint's address (device.rs and endpoint.rs of the original).
#![tactic(auto)]

ghost use Rattle.std.specs.Prelude.{◌≡◌};
ghost use Rattle.descriptor.specs.Word.{is_companion, word_kind, configuration_value, interface_number, alternate_setting, companion_mult, endpoint_descriptor, companion_ok, word_ok};
ghost use Rattle.descriptor.specs.Endpoint.{dci_of};

use def::Dci;

#[derive(Clone, Copy)]
pub enum TransferType {
    Control,
    Isochronous,
    Bulk,
    Interrupt,
}

#[derive(Clone, Copy)]
pub struct EndpointDescriptor {
    pub address: u8,
    pub transfer_type: TransferType,
    pub max_packet_size: u16,
    pub packets_per_microframe: u8,
    pub interval: u8,
    pub burst: u8,
    pub mult: u8,
    pub bytes_per_interval: u16,
}

// Kinds of descriptor words, and their numbers.
#[derive(Clone, Copy, PartialEq, Eq)]
pub enum WordKind {
    Configuration,
    Alternate,
    Endpoint,
}

// Constants beside the enum, since a pattern takes no variant's number.
pub const CONFIGURATION: u8 = 0;

pub const ALTERNATE: u8 = 1;

pub const ENDPOINT: u8 = 2;

pub const COMPANION: u8 = 3;

// The lowest bit of each field of a descriptor word (`_LSB`). A word is 64 bits wide: above an endpoint word stands its companion, if it has
// one, from COMPANION_LSB on.
pub const KIND_LSB: u64 = 0x4000_0000;

pub const VALUE_LSB: u64 = 0x40_0000;

pub const INTERFACE_LSB: u64 = 0x40_0000;

pub const SETTING_LSB: u64 = 0x4000;

pub const IN_LSB: u64 = 0x2000_0000;

pub const NUMBER_LSB: u64 = 0x200_0000;

pub const TYPE_LSB: u64 = 0x80_0000;

pub const PACKET_SIZE_LSB: u64 = 0x1000;

pub const PACKETS_LSB: u64 = 0x400;

pub const INTERVAL_LSB: u64 = 0x4;

pub const BURST_LSB: u64 = 0x400_0000;

pub const MULT_LSB: u64 = 0x100_0000;

pub const BYTES_LSB: u64 = 0x100;

pub const COMPANION_LSB: u64 = 0x1_0000_0000;

#[tactic(auto, unfolding(crate::specs::Word::is_companion, crate::specs::Word::kind))]
pub fn is_companion(w: u64) -> bool
    ensures { result ≡ is_companion w }
{
    (w / KIND_LSB % 4) as u8 == COMPANION
}

// None for a companion, which is no word by itself.
#[tactic(auto, unfolding(crate::specs::Word::word_kind, crate::specs::Word::kind))]
pub fn word_kind(w: u64) -> Option<WordKind>
    ensures { result ≡ word_kind w }
{
    match (w / KIND_LSB % 4) as u8 {
        CONFIGURATION => Some(WordKind::Configuration),
        ALTERNATE => Some(WordKind::Alternate),
        ENDPOINT => Some(WordKind::Endpoint),
        _ => None,
    }
}

#[tactic(auto, unfolding(crate::specs::Word::configuration_value))]
pub fn configuration_value(w: u64) -> u8
    ensures { result ≡ configuration_value w }
{
    (w / VALUE_LSB % 256) as u8
}

#[tactic(auto, unfolding(crate::specs::Word::interface_number))]
pub fn interface_number(w: u64) -> u8
    ensures { result ≡ interface_number w }
{
    (w / INTERFACE_LSB % 256) as u8
}

#[tactic(auto, unfolding(crate::specs::Word::alternate_setting))]
pub fn alternate_setting(w: u64) -> u8
    ensures { result ≡ alternate_setting w }
{
    (w / SETTING_LSB % 256) as u8
}

// An endpoint word taken apart, its companion too.
#[tactic(auto, unfolding(crate::specs::Word::endpoint_descriptor, crate::specs::Word::direction_in, crate::specs::Word::endpoint_number, crate::specs::Word::type_number, crate::specs::Word::transfer_type, crate::specs::Word::companion_of, crate::specs::Word::companion_burst, crate::specs::Word::companion_mult, crate::specs::Word::companion_bytes))]
pub fn endpoint_descriptor(w: u64) -> EndpointDescriptor
    ensures { result ≡ endpoint_descriptor w }
{
    // The only place where a type comes from its number, so a From would be no plainer.
    let transfer_type = match w / TYPE_LSB % 4 {
        1 => TransferType::Isochronous,
        2 => TransferType::Bulk,
        3 => TransferType::Interrupt,
        _ => TransferType::Control,
    };
    let companion = w / COMPANION_LSB;
    EndpointDescriptor {
        address: (w / IN_LSB % 2 * 128 + w / NUMBER_LSB % 16) as u8,
        transfer_type,
        max_packet_size: (w / PACKET_SIZE_LSB % 2048) as u16,
        packets_per_microframe: (w / PACKETS_LSB % 4) as u8,
        interval: (w / INTERVAL_LSB % 256) as u8,
        burst: (companion / BURST_LSB % 16) as u8,
        mult: (companion / MULT_LSB % 4) as u8,
        bytes_per_interval: (companion / BYTES_LSB % 65536) as u16,
    }
}

#[tactic(auto, unfolding(crate::specs::Word::companion_mult))]
pub fn companion_mult(c: u64) -> u8
    ensures { result ≡ companion_mult c }
{
    (c / MULT_LSB % 4) as u8
}

// Whether a companion has no unused bit set.
#[tactic(auto, unfolding(crate::specs::Word::companion_ok))]
pub fn companion_ok(c: u64) -> bool
    ensures { result ≡ companion_ok c }
{
    c % BYTES_LSB == 0
}

// Whether a word may stand in a valid list, companions apart.
#[tactic(auto, unfolding(crate::specs::Word::word_kind, crate::specs::Word::word_ok, crate::specs::Word::endpoint_ok, crate::specs::Word::endpoint_number, crate::specs::Word::type_number))]
pub fn word_ok(w: u64) -> bool
    ensures { result ≡ word_ok w }
{
    match word_kind(w) {
        Some(WordKind::Configuration) => w % VALUE_LSB == 0,
        Some(WordKind::Alternate) => w % SETTING_LSB == 0,
        Some(WordKind::Endpoint) => {
            w / NUMBER_LSB % 16 != 0 && w / TYPE_LSB % 4 != 0 && w % INTERVAL_LSB == 0
        }
        None => false,
    }
}

#[tactic(auto, unfolding(crate::specs::Endpoint::dci_of))]
pub fn endpoint_address_dci(address: u8) -> Dci
    ensures { result.0 ≡ dci_of address }
{
    Dci(address % 16 * 2 + address / 128)
}
