// Bytes cut into descriptors by their lengths.
ghost use Rattle.std.specs.Prelude.{◌+◌, ◌*◌, ◌<◌, ◌≡◌, true, false, MatchOption, length, get_or};
ghost use Rattle.descriptor_raw.specs.Descriptor.{TYPE, kind_of, size_of, byte_at, two_bytes_at};
ghost use Rattle.descriptor_raw.specs.Read.{descriptors, whole, all_whole};

use descriptor_raw::{DescriptorKind, place, size};

// A descriptor that has the bytes that its length says, and its type's size at least, of a device with companions or without.
#[derive(Clone, Copy)]
pub struct Descriptor<'a> {
    pub bytes: &'a [u8],
    pub companions: bool,
    pub ghost whole: { whole companions bytes.now ≡ true },
}

impl<'a> Descriptor<'a> {
    pub fn kind(self) -> DescriptorKind
        ensures { result ≡ kind_of (byte_at TYPE self.entry.bytes.now) }
    {
        DescriptorKind::from(self.bytes[place::TYPE])
    }

    // A field of two bytes.
    pub fn two_bytes(self, at: usize) -> u16
        requires { at + 1 < length self.bytes.now }
        ensures { result ≡ two_bytes_at at self.entry.bytes.now }
    {
        u16::from_le_bytes([self.bytes[at], self.bytes[at + 1]])
    }
}

// Such descriptors, one after the other.
#[derive(Clone, Copy)]
pub struct Descriptors<'a> {
    bytes: &'a [u8],
    companions: bool,
    pub ghost whole: { all_whole companions (descriptors bytes.now) ≡ true },
}

impl<'a> Descriptors<'a> {
    // The descriptors of bytes, if all are whole.
    pub fn of(bytes: &'a [u8], companions: bool) -> Option<Descriptors<'a>>
        ensures { MatchOption result (all_whole companions (descriptors bytes.now) ≡ false) (λ ds. (ds.bytes.now ≡ bytes.now) × (ds.companions ≡ companions)) }
    {
        if !lengths_fit(bytes, companions) {
            return None;
        }
        Some(Descriptors { bytes, companions })
    }
}

impl<'a> Iterator for Descriptors<'a> {
    ghost use Rattle.std.specs.Iterator.{at_most};
    ghost use Rattle.descriptor_reader.specs.Walk.{Yields};

    type Item = Descriptor<'a>;

    ghost next_gives = { Yields };

    ghost remaining = { λ ds. at_most (length ds.bytes.now) };

    fn next(&mut self) -> Option<Descriptor<'a>> {
        let n = *self.bytes.first()? as usize;
        let (bytes, rest) = self.bytes.split_at(n);
        self.bytes = rest;
        Some(Descriptor {
            bytes,
            companions: self.companions,
        })
    }
}

// The size of a descriptor by its type, the least one of another type.
#[tactic(auto, unfolding(descriptor_raw::specs::Descriptor::size_of, descriptor_raw::specs::Descriptor::kind_of))]
fn size_of(kind: u8, companions: bool) -> usize
    ensures { result ≡ size_of companions kind }
{
    match DescriptorKind::from(kind) {
        DescriptorKind::Configuration => size::CONFIGURATION,
        DescriptorKind::Interface => size::INTERFACE,
        DescriptorKind::Endpoint => size::ENDPOINT,
        DescriptorKind::Companion => if companions {
            size::COMPANION
        } else {
            size::LEAST
        },
        DescriptorKind::Other => size::LEAST,
    }
}

// Whether each descriptor has its type's size at least, and none goes past the end.
fn lengths_fit(bytes: &[u8], companions: bool) -> bool
    ensures { result ≡ all_whole companions (descriptors bytes.now) }
{
    let mut rest = bytes;
    while !rest.is_empty() {
        let n = rest[place::LENGTH] as usize;
        if n < size::LEAST {
            return false;
        }
        if rest.len() < n {
            return false;
        }
        if n < size_of(rest[place::TYPE], companions) {
            return false;
        }
        (_, rest) = rest.split_at(n);
    }
    true
}
