// The static library of the calls for C (host/include/xhci_device.h): each export calls the function of its name, with the same parameters, since no
// crate can use an archive; those of the dispatcher call crates/dispatcher.
#![tactic(auto)]

mod ask;
mod calls;
mod choose;
mod dispatch;
mod record;
mod why;
