// Lines of hexadecimal digits.
ghost use Rattle.std.specs.Prelude.{◌<◌, ◌≤◌, vec_len};

use std::alloc::{AllocError, Allocator};

// The most bytes of one device.
const ROOM: usize = 1024;

// As crates/replay_sample reads a digit, which is over another library.
pub fn digit(b: u8) -> u8
    ensures { result < 16 }
{
    if b < b'a' {
        b % 16
    } else {
        (b - b'a') % 6 + 10
    }
}

// Puts the bytes of a line behind others, as many as there is room for.
pub fn put_line<A: Allocator>(line: &[u8], bytes: &mut Vec<u8, A>) -> Result<(), AllocError>
    ensures { vec_len bytes.old ≤ 1024 → vec_len bytes.new ≤ 1024 }
{
    for digits in line.chunks_exact(2) {
        if bytes.len() < ROOM {
            bytes.push(digit(digits[0]) * 16 + digit(digits[1]))?;
        }
    }
    Ok(())
}
