// Where the fields of descriptors stand: of each,
pub const LENGTH: usize = 0;

pub const TYPE: usize = 1;

// of a configuration,
pub const TOTAL_LENGTH: usize = 2;

pub const NUM_INTERFACES: usize = 4;

pub const CONFIGURATION_VALUE: usize = 5;

pub const CONFIGURATION_ATTRIBUTES: usize = 7;

// of an interface,
pub const INTERFACE_NUMBER: usize = 2;

pub const ALTERNATE_SETTING: usize = 3;

pub const NUM_ENDPOINTS: usize = 4;

// of a companion,
pub const MAX_BURST: usize = 2;

pub const COMPANION_ATTRIBUTES: usize = 3;

pub const BYTES_PER_INTERVAL: usize = 4;

// of an endpoint.
pub const ENDPOINT_ADDRESS: usize = 2;

pub const ENDPOINT_ATTRIBUTES: usize = 3;

pub const MAX_PACKET_SIZE: usize = 4;

// (Of that field the size is below this bit, and from it on stand the packets per microframe less one.)
pub const PACKETS_LSB: usize = 2048;

pub const INTERVAL: usize = 6;
