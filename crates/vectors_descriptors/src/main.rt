// Reads the descriptors of real devices, as `stdin` has them, through the functions for C, writes their words, reads these bytes again and
// compares; `stdout` holds what it must print. A device is of speed 3 unless a line of one digit says another.
#![tactic(auto)]

mod show;
mod text;

use std::alloc::Allocator;
use std::io;
use std::io::Read;

// The most that is read.
const ROOM: u64 = 16384;

// A high-speed device's.
const SPEED: u8 = 3;

// The descriptors of one device. The functions for C write to lent memory, and return how much they wrote.
fn run(rt: &impl Print, speed: u8, bytes: &[u8]) -> io::Result<()> {
    let mut words = [0u32; 256];
    let r = xhci_functions::xhci_device_read_descriptors(bytes, speed, &mut words);
    let n = show::words(rt, r, &words)?;
    if r.answer != 0 {
        return Ok(());
    }
    let mut written = [0u8; 2304];
    let w = xhci_functions::xhci_device_write_descriptors(&words[..n], speed, &mut written);
    let m = show::bytes(rt, w, &written)?;
    let mut again = [0u32; 256];
    let a = xhci_functions::xhci_device_read_descriptors(&written[..m], speed, &mut again);
    show::again(rt, a, &words, &again)
}

// The devices of a text: the lines of one, and an empty one.
fn devices<A: Allocator>(rt: &impl Print, alloc: A, input: &[u8]) -> io::Result<()> {
    let mut bytes = Vec::new(alloc);
    let mut speed = SPEED;
    for line in input.split_inclusive(|b| *b == b'\n') {
        let line = line.strip_suffix(b"\n").unwrap_or(line);
        if line.is_empty() {
            run(rt, speed, &bytes)?;
            bytes.clear();
            speed = SPEED;
        } else if line[0] == b'#' {
            rt.write_all(line)?;
            rt.print("\n")?;
        } else if line.len() == 1 {
            speed = text::digit(line[0]);
        } else {
            text::put_line(line, &mut bytes)?;
        }
    }
    Ok(())
}

fn main(rt: HostRuntime) -> io::Result<()> {
    let mut lines = Vec::new(rt.alloc());
    rt.reader().take(ROOM).read_to_end(&mut lines)?;
    devices(&rt, rt.alloc(), &lines)
}
