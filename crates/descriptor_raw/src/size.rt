// The sizes of descriptors. One of another type has at least its length and its type.
pub const CONFIGURATION: usize = 9;

pub const INTERFACE: usize = 9;

pub const ENDPOINT: usize = 7;

pub const COMPANION: usize = 6;

pub const LEAST: usize = 2;
