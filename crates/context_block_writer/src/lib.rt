// The blocks of an input context, written field by field: control, slot and endpoint.
// A block is a slice, and each function asks that it has 32 bytes. Of a `&mut [u8; 32]` lent from `&mut ctx[a..a + 32]` a caller does not
// know what was written; lent by `split_at_mut`, `first_chunk_mut` and a `let .. else` it does, three statements at each call for one
// clause here.
#![tactic(auto)]

pub mod control;
pub mod endpoint;
pub mod slot;
