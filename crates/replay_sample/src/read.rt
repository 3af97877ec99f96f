// Numbers from standard input, each 16 hexadecimal digits and a line's end.
ghost use Rattle.std.specs.Prelude.{◌<◌, ◌≤◌, IfOk, length};

use std::io;
use std::io::Read;

// As much of a buffer as the input still has; the rest stays. `read_exact` refuses an input that ends before, which here reads as zeros.
fn fill(rt: &impl Input, buf: &mut [u8]) -> io::Result<()> {
    let mut at = 0;
    while at < buf.len() {
        let n = rt.reader().read(&mut buf[at..])?;
        if n == 0 {
            break;
        }
        at += n;
    }
    Ok(())
}

// The low four bits of a byte before `a`; from there on the six digits `a` to `f` over and over.
fn digit(b: u8) -> u64
    ensures { result < 16 }
{
    u64::from(if b < b'a' {
        b % 16
    } else {
        (b - b'a') % 6 + 10
    })
}

fn value(digits: &[u8]) -> u64 {
    digits.iter().fold(0, |v, b| v << 4 | digit(*b))
}

pub fn next(rt: &impl Input) -> io::Result<u64> {
    let mut digits = [0u8; 16];
    fill(rt, &mut digits)?;
    let mut end = [0u8; 1];
    fill(rt, &mut end)?;
    Ok(value(&digits))
}

// A length, or an index, at most so much.
pub fn count(rt: &impl Input, most: usize) -> io::Result<usize>
    ensures { IfOk result (λ n. n ≤ most) }
{
    Ok((next(rt)? as usize).min(most))
}

pub fn byte(rt: &impl Input) -> io::Result<u8> {
    Ok((next(rt)? % 256) as u8)
}

pub fn word(rt: &impl Input) -> io::Result<u32> {
    Ok((next(rt)? % 4294967296) as u32)
}

// Elements that are not 0: how many, then index and value of each.
pub fn elements<T: Copy, F: Fn(u64) -> T>(
    rt: &impl Input,
    buf: &mut [T],
    element: F,
) -> io::Result<()>
    requires { F.IsAlwaysCallable element }
{
    for _ in 0..next(rt)? {
        let i = next(rt)? as usize;
        let x = element(next(rt)?);
        if i < buf.len() {
            buf[i] = x;
        }
    }
    Ok(())
}

// Words of 64 bits.
pub fn words(rt: &impl Input, buf: &mut [u64]) -> io::Result<()> {
    elements(rt, buf, |w| w)
}

// Words of 32 bits.
pub fn list(rt: &impl Input, buf: &mut [u32]) -> io::Result<()> {
    elements(rt, buf, |w| (w % 4294967296) as u32)
}

pub fn bytes(rt: &impl Input, buf: &mut [u8]) -> io::Result<()> {
    elements(rt, buf, |w| (w % 256) as u8)
}

// A list in memory of its own: the elements that are not 0, and then its length, at most so much.
pub fn list_of<R: Input + Alloc, T: Copy, F: Fn(u64) -> T>(
    rt: &R,
    most: usize,
    element: F,
) -> io::Result<Vec<T, R::A>>
    requires { F.IsAlwaysCallable element }
    ensures { IfOk result (λ v. length v.items ≤ most) }
{
    let mut list = vec![in rt.alloc(); element(0); most]?;
    elements(rt, &mut list, element)?;
    list.truncate(count(rt, most)?);
    Ok(list)
}

// The record of a call.
pub fn read_record(rt: &impl Input, image: &mut [u64]) -> io::Result<()> {
    words(rt, image)
}
