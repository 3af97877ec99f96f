// Why a claim or a commit got its answer. The parameters, and `Why`, are those of the C interface.
ghost use Rattle.std.specs.Prelude.{◌≡◌};
ghost use Rattle.device_image.specs.Image.{decode};
ghost use Rattle.reason.specs.Reason.{claim_reason};
ghost use Rattle.xhci_device.specs.Why.{why_of};

use reason::Reason;

// A reason: `kind` says which of the others it has. They are 0 where it has them not.
#[repr(C)]
#[derive(Clone, Copy)]
pub struct Why {
    // 0 none, 1 alternate, 2 endpoint, 3 rings, 4 command, 5 number
    pub kind: u32,
    // the one asked for; of an endpoint, its owner
    pub interface: u8,
    pub alternate: u8,
    // the endpoint's, or that of the log
    pub word: u32,
    // the answer's
    pub number: u32,
    // in the log, from 0
    pub place: usize,
}

const NONE: Why = Why {
    kind: 0,
    interface: 0,
    alternate: 0,
    word: 0,
    number: 0,
    place: 0,
};

#[tactic(auto, unfolding(crate::specs::Why::why_of))]
fn why_of(r: Reason) -> Why
    ensures { result ≡ why_of r }
{
    match r {
        Reason::Nothing => NONE,
        Reason::Alternate {
            interface,
            alternate,
        } => Why {
            kind: 1,
            interface,
            alternate,
            ..NONE
        },
        Reason::Endpoint { word, owner } => Why {
            kind: 2,
            interface: owner,
            word,
            ..NONE
        },
        Reason::Rings => Why { kind: 3, ..NONE },
        Reason::Command { place, word } => Why {
            kind: 4,
            word,
            place,
            ..NONE
        },
        Reason::Number(number) => Why {
            kind: 5,
            number,
            ..NONE
        },
    }
}

// From the image that the call left, the interface and the alternate that it was given, its answer, the words that it logged, and the outcomes.
pub fn xhci_device_why(
    image: &[u64],
    interface: u8,
    alternate: u8,
    answer: u32,
    log: &[u32],
    outcomes: &[u8],
) -> Why
    ensures { result ≡ why_of (claim_reason (decode image.now) interface alternate answer log.now outcomes.now) }
{
    let d = device_image::decode(image);
    why_of(reason::claim_reason(d, interface, alternate, answer, log, outcomes))
}
