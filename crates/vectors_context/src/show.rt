// Blocks of a context on standard output.
use super::memory::Context;
use std::io;

// The little-endian doubleword that begins at a place; nothing where the context ends before.
fn doubleword(rt: &impl Print, ctx: &[u8], at: usize) -> io::Result<()> {
    let Some([a, b, c, d, ..]) = ctx.get(at..) else {
        return Ok(());
    };
    let x = u32::from_le_bytes([*a, *b, *c, *d]);
    print!(rt; " {x:08x}")
}

// The eight doublewords of block number b, and after them the next one where blocks are 64 bytes apart.
pub fn block(rt: &impl Print, label: &str, c: &Context, b: u8) -> io::Result<()> {
    print!(rt; "{label}")?;
    let at = c.spacing.saturating_mul(b as usize);
    for word in 0..8 {
        doubleword(rt, c.bytes, at.saturating_add(4 * word))?;
    }
    if c.spacing == 64 {
        print!(rt; " |")?;
        doubleword(rt, c.bytes, at.saturating_add(32))?;
    }
    println!(rt; "")
}
