// Where the words of an image stand, by the names of host/include/xhci_device.h. What a record gets from now on is appended: no word moves.
// Flags: 0 or 1.
pub const USABLE: usize = 0;

pub const CONFIGURED: usize = 1;

pub const CONTROL_REVOKED: usize = 2;

pub const EP_REVOKED: usize = 3;

// Bytes.
pub const SLOT: usize = 33;

pub const MAX_SLOTS: usize = 34;

pub const PORT_SPEED: usize = 35;

pub const CURRENT_CONFIG_VALUE: usize = 36;

pub const EP_ADDRESSES: usize = 37;

pub const EP_INTERFACES: usize = 67;

pub const INTERFACES: usize = 97;

pub const ALTERNATES: usize = 129;

// Words of 32 bits.
pub const LIST: usize = 161;

// Words of 64 bits.
pub const SPACING: usize = 417;

pub const LIST_LEN: usize = 418;

pub const EP_COUNT: usize = 419;

pub const HELD_COUNT: usize = 420;

pub const QUARANTINED_COUNT: usize = 421;

pub const CONTROL: usize = 422;

pub const EP_RINGS: usize = 423;

pub const QUARANTINED: usize = 453;

// A flag.
pub const UP: usize = 514;

// Words of 64 bits.
pub const GIVEN_COUNT: usize = 515;

pub const GIVEN: usize = 516;

// How many there are.
pub const WORDS: usize = 580;
