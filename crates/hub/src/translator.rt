// The transaction translator above a Low or Full speed device.
ghost use Rattle.std.specs.Prelude.{◌≡◌};
ghost use Rattle.hub.specs.Translator.{translator_of};

use crate::way::Way;

// The High speed hub that translates for a Low or Full speed device, and the port on it; all 0 where there is none, as the slot
// context then says it.
#[derive(Clone, Copy)]
pub struct Translator {
    pub slot_id: u8,
    pub multi: bool,
    pub port: u8,
}

const NO_TRANSLATOR: Translator = Translator {
    slot_id: 0,
    multi: false,
    port: 0,
};

// What a device's slot context says of a transaction translator. The port on the High hub is passed on as it is, and a root hub
// never counts.
pub fn transaction_translator(
    speed: u8,
    hubs: &[u64],
    parent: Option<usize>,
    port: u8,
) -> Translator
    ensures { result ≡ translator_of speed hubs.now parent port }
{
    if speed != def::FULL && speed != def::LOW {
        return NO_TRANSLATOR;
    }
    let Some(parent) = parent else {
        return NO_TRANSLATOR;
    };
    for socket in Way::above(hubs, parent, port) {
        let h = socket.hub;
        if h.speed == def::HIGH {
            return Translator {
                slot_id: h.slot_id,
                multi: h.multi,
                port: socket.port,
            };
        }
    }
    NO_TRANSLATOR
}
