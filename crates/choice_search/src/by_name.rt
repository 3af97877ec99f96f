// What a name may be given.

// How many candidates all names may have.
pub const CANDIDATES: usize = 256;

// A place in a list, and the addresses there, a bit for each Dci.
#[derive(Clone, Copy)]
pub struct Candidate {
    pub place: u8,
    pub addresses: u32,
}
