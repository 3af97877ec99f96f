// A claim in two calls: the ask, which shows what it would do, and the commit. The parameters, and `Shown`, are those of the C interface.
ghost use Rattle.std.specs.Prelude.{◌≡◌, ◌≤◌, length};
ghost use Rattle.device.specs.Ask.{asking, commit};
ghost use Rattle.device_image.specs.Image.{decode, is_image};
ghost use Rattle.xhci_device.specs.Crossed.{crosses, CrossedAs};
ghost use Rattle.xhci_device.specs.Ask.{in_front, shown_of, asked_in};

use super::returned;
use answer::Answered;
use device::Asked;
use record_checks::Lengths;
use record_endpoint::PLACES;

// What an ask returns beside the rings. Of a refused one all but the answer is 0.
#[repr(C)]
#[derive(Clone, Copy)]
pub struct Shown {
    pub answer: u32,
    pub interface: u8,
    pub alternate: u8,
    // bit d for Dci d
    pub drops: u32,
    pub adds: u32,
    // how many rings
    pub count: usize,
}

// Rings put in front of lent words, the rest of which stay.
#[tactic(auto, unfolding(crate::specs::Ask::in_front))]
fn put_rings(words: &mut [u64], rings: &[u64])
    requires { length rings.now ≤ length words.old }
    ensures { words.new ≡ in_front rings.now words.old }
{
    words[..rings.len()].copy_from_slice(rings);
}

// What a claim that is lent a context, a table and a log of these lengths would do. The rings that it would draw go to the lent words.
pub fn xhci_device_ask(
    image: &[u64],
    ctx: usize,
    routes: usize,
    log: usize,
    interface: u8,
    alternate: u8,
    rings: &mut [u64],
) -> Shown
    ensures { (result ≡ shown_of (asked_in image.now ctx routes log interface alternate (length rings.old)))
        × (rings.new ≡ in_front (asked_in image.now ctx routes log interface alternate (length rings.old)).1.rings rings.old) }
{
    let d = device_image::decode(image);
    let room = if rings.len() < PLACES { 0 } else { log };
    let l = Lengths {
        ctx,
        routes,
        log: room,
    };
    let p = d.ask(l, interface, alternate);
    put_rings(rings, &p.rings[..p.count]);
    Shown {
        answer: u32::from(answer::answer_number(p.answer)),
        interface: p.interface,
        alternate: p.alternate,
        drops: p.drops,
        adds: p.adds,
        count: p.count,
    }
}

pub fn xhci_device_commit(
    image: &mut [u64],
    ctx: &mut [u8],
    routes: &mut [u64],
    log: &mut [u32],
    outcomes: &[u8],
    interface: u8,
    alternate: u8,
    drops: u32,
    adds: u32,
    rings: &[u64],
) -> Answered
    ensures { CrossedAs (crosses result image.new ctx.new routes.new log.new) (is_image image.old)
        (commit (decode image.old) ctx.old routes.old log.old outcomes.now
        (asking interface alternate drops adds rings.now))
        image.old ctx.old routes.old log.old }
{
    let d = device_image::decode(image);
    let asked = Asked {
        interface,
        alternate,
        drops,
        adds,
        rings,
    };
    let called = d.commit(ctx, routes, log, outcomes, asked);
    returned::finish(&called, image)
}
