// Slot and endpoint numbers, speeds, and the packet sizes of the control endpoint (def.rs, mod.rs and `setup_max_packet` of the original).
#![tactic(auto)]

ghost use Rattle.std.specs.Prelude.{◌≡◌, true};
ghost use Rattle.def.specs.Speed.{speed_known, is_super, first_packet_size, exponent_ok, header_packet_size};

// A device slot of the controller: 1 to N.
#[derive(Clone, Copy, PartialEq, Eq)]
pub struct SlotId(pub u8);

// The device context index of an endpoint: 1 is control, 2 * number + IN the others.
#[derive(Clone, Copy, PartialEq, Eq)]
pub struct Dci(pub u8);

impl Dci {
    pub const CTRL: Dci = Dci(1);
}

// The xHCI default speed ids (xHCI 1.2, 7.2.2.1.1). A speed is the byte that the caller has, known or not: an enum would ask
// more of callers.
pub const FULL: u8 = 1;

pub const LOW: u8 = 2;

pub const HIGH: u8 = 3;

pub const SUPER: u8 = 4;

pub const SUPER_PLUS: u8 = 5;

#[tactic(auto, unfolding(crate::specs::Speed::speed_known))]
pub fn speed_known(speed: u8) -> bool
    ensures { result ≡ speed_known speed }
{
    (FULL..=SUPER_PLUS).contains(&speed)
}

// Whether a device of this speed has companions in its list.
#[tactic(auto, unfolding(crate::specs::Speed::is_super))]
pub fn is_super(speed: u8) -> bool
    ensures { result ≡ is_super speed }
{
    (SUPER..=SUPER_PLUS).contains(&speed)
}

const FIRST_PACKET_SIZES: [u16; 6] = [0, 64, 8, 64, 512, 512];

// The control endpoint's packet size before the device's own is read; 0 at an unknown speed, which its callers have refused:
// an Option would have an arm that none of them takes.
#[tactic(auto, using(crate::proofs::Laws::table_right, crate::proofs::Laws::size_unknown))]
pub fn parse_default_max_packet_size_from_port_speed(speed: u8) -> u16
    ensures { result ≡ first_packet_size speed }
{
    if SUPER_PLUS < speed {
        return 0;
    }
    FIRST_PACKET_SIZES[speed as usize]
}

// The only exponent of a packet size that a SuperSpeed device may have: 2 to the ninth.
const SUPER_EXPONENT: u8 = 9;

const SUPER_PACKET_SIZE: u16 = 512;

// Whether bMaxPacketSize0 of the device descriptor is one that a device of this speed may have.
#[tactic(auto, unfolding(crate::specs::Speed::exponent_ok, crate::specs::Speed::is_super))]
pub fn exponent_ok(speed: u8, byte: u8) -> bool
    ensures { result ≡ exponent_ok speed byte }
{
    match speed {
        SUPER..=SUPER_PLUS => byte == SUPER_EXPONENT,
        _ => true,
    }
}

// The control endpoint's packet size from bMaxPacketSize0 of the device descriptor. No Option for the two: the byte is judged where it is
// read, and the size is written where the context is, and nothing is read there.
#[tactic(auto, unfolding(crate::specs::Speed::header_packet_size, crate::specs::Speed::exponent_ok, crate::specs::Speed::is_super))]
pub fn header_packet_size(speed: u8, byte: u8) -> u16
    requires { exponent_ok speed byte ≡ true }
    ensures { result ≡ header_packet_size speed byte }
{
    match speed {
        SUPER..=SUPER_PLUS => SUPER_PACKET_SIZE,
        _ => if byte == 0 { 8 } else { byte as u16 },
    }
}
