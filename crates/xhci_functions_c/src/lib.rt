// The static library of the functions outside a slot for C (host/include/xhci_device.h): each export calls the function of its name,
// since no crate can use an archive.
#![tactic(auto)]

ghost use Rattle.std.specs.Prelude.{◌≡◌, ltb};
ghost use Rattle.descriptor_raw.specs.Read.{read_descriptors};
ghost use Rattle.descriptor_raw.specs.Write.{write_descriptors};
ghost use Rattle.settings_form.specs.Convert.{to_new, to_old};
ghost use Rattle.context_part.specs.Part.{placed_block};
ghost use Rattle.xhci_functions.specs.Crossed.{crosses, crossed, placed_of};

use xhci_functions::{Answered, Placed};

#[unsafe(no_mangle)]
pub extern "C" fn xhci_device_read_descriptors(
    bytes: &[u8],
    speed: u8,
    words: &mut [u32],
) -> Answered
    ensures { crosses result words.new ≡ crossed (read_descriptors speed bytes.now words.old) }
{
    xhci_functions::xhci_device_read_descriptors(bytes, speed, words)
}

#[unsafe(no_mangle)]
pub extern "C" fn xhci_device_write_descriptors(
    list: &[u32],
    speed: u8,
    bytes: &mut [u8],
) -> Answered
    ensures { crosses result bytes.new ≡ crossed (write_descriptors speed list.now bytes.old) }
{
    xhci_functions::xhci_device_write_descriptors(list, speed, bytes)
}

#[unsafe(no_mangle)]
pub extern "C" fn xhci_device_settings_to_new(
    settings: &[u8],
    list: &[u32],
    speed: u8,
    bytes: &mut [u8],
) -> Answered
    ensures { crosses result bytes.new ≡ crossed (to_new speed settings.now list.now bytes.old) }
{
    xhci_functions::xhci_device_settings_to_new(settings, list, speed, bytes)
}

#[unsafe(no_mangle)]
pub extern "C" fn xhci_device_settings_to_old(
    settings: &[u8],
    list: &[u32],
    speed: u8,
    bytes: &mut [u8],
) -> Answered
    ensures { crosses result bytes.new ≡ crossed (to_old speed settings.now list.now bytes.old) }
{
    xhci_functions::xhci_device_settings_to_old(settings, list, speed, bytes)
}

// The block of a Dci in an input or an output context of these lengths. A reference cannot cross, so C gets numbers.
#[unsafe(no_mangle)]
pub extern "C" fn xhci_device_block(input: usize, output: usize, from_output: u8, dci: u8) -> Placed
    ensures { result ≡ placed_of (placed_block input output (ltb 0 from_output) dci) }
{
    xhci_functions::xhci_device_block(input, output, from_output, dci)
}
