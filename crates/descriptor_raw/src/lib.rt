// Raw configuration descriptors (USB 2.0 section 9.6, USB 3.2 section 9.6.7): what their reader and their writer share.
#![tactic(auto)]

mod marks;
pub mod place;
pub mod size;

ghost use Rattle.std.specs.Prelude.{◌≡◌};
ghost use Rattle.descriptor_raw.specs.Descriptor.{kind_of};

pub use marks::Marks;

// Types of descriptors.
pub const CONFIGURATION: u8 = 2;

pub const INTERFACE: u8 = 4;

pub const ENDPOINT: u8 = 5;

pub const COMPANION: u8 = 48;

// How many words the reader is lent at least, and how many bytes the writer.
pub const READ_WORDS: usize = 256;

pub const WRITE_BYTES: usize = 2304;

// A descriptor by its type.
#[derive(Clone, Copy, PartialEq, Eq)]
pub enum DescriptorKind {
    Configuration,
    Interface,
    Endpoint,
    Companion,
    Other,
}

impl From<u8> for DescriptorKind {
    ghost from_gives = { λ type kind. kind ≡ kind_of type };

    #[tactic(auto, unfolding(crate::specs::Descriptor::kind_of))]
    fn from(type_byte: u8) -> DescriptorKind {
        match type_byte {
            CONFIGURATION => DescriptorKind::Configuration,
            INTERFACE => DescriptorKind::Interface,
            ENDPOINT => DescriptorKind::Endpoint,
            COMPANION => DescriptorKind::Companion,
            _ => DescriptorKind::Other,
        }
    }
}
