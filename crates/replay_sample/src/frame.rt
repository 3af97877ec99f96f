// The frame of every replay.
use super::{read, show, sizes};
use std::io;
use xhci_device::Answered;

// What is lent to one call, the call, and what it left. The call takes the lent memory as the functions for C do.
fn replay_one<
    R: Input + Print,
    I: Fn(&R, &mut [u64]) -> io::Result<()>,
    F: Fn(&R, &mut [u64], &mut [u8], &mut [u64], &mut [u32], &[u8]) -> io::Result<Answered>,
>(rt: &R, ctx: &mut [u8], read_record: &I, call: &F) -> io::Result<()>
    requires reads { I.IsAlwaysCallable read_record.now }
    requires calls { F.IsAlwaysCallable call.now }
{
    let mut image = [0u64; xhci_device::WORDS];
    read_record(rt, &mut image)?;
    let mut routes = [0u64; sizes::ROUTES_ROOM];
    read::words(rt, &mut routes)?;
    let mut log = [0xa500_0000u32; sizes::LOG_ROOM];
    let mut outcomes = [0u8; sizes::OUTCOMES_ROOM];
    read::bytes(rt, &mut outcomes)?;
    let n = read::count(rt, sizes::OUTCOMES_ROOM)?;
    let a = call(rt, &mut image, ctx, &mut routes, &mut log, &outcomes[..n])?;
    show::left(rt, a, &log, ctx, &routes, &image)
}

// Calls that the original was given: `read_record` reads the record of each, and `call` its other arguments.
pub fn replay<
    R: Input + Print,
    I: Fn(&R, &mut [u64]) -> io::Result<()>,
    F: Fn(&R, &mut [u64], &mut [u8], &mut [u64], &mut [u32], &[u8]) -> io::Result<Answered>,
>(rt: &R, read_record: I, call: F) -> io::Result<()>
    requires reads { I.IsAlwaysCallable read_record }
    requires calls { F.IsAlwaysCallable call }
{
    for _ in 0..read::next(rt)? {
        let mut ctx = [0x5au8; sizes::CONTEXT_ROOM];
        let n = read::count(rt, sizes::CONTEXT_ROOM)?;
        replay_one(rt, &mut ctx[..n], &read_record, &call)?;
    }
    Ok(())
}
