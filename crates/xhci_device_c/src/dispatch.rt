// Which of many slots has its turn on the command ring. By value: nothing is lent. The parameters are those of the C interface.
ghost use Rattle.std.specs.Prelude.{◌≡◌};
ghost use Rattle.dispatcher.specs.Dispatcher.{new_dispatcher, submitted, turned};

use dispatcher::{Dispatcher, Submitted, Turned};

#[unsafe(no_mangle)]
pub extern "C" fn xhci_device_new_dispatcher() -> Dispatcher
    ensures { result ≡ new_dispatcher }
{
    dispatcher::new_dispatcher()
}

#[unsafe(no_mangle)]
pub extern "C" fn xhci_device_submit(d: Dispatcher, slot: u8) -> Submitted
    ensures { result ≡ submitted d slot }
{
    dispatcher::submit(d, slot)
}

#[unsafe(no_mangle)]
pub extern "C" fn xhci_device_turn(d: Dispatcher) -> Turned
    ensures { result ≡ turned d }
{
    dispatcher::turn(d)
}
