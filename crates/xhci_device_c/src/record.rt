// What a caller asks of a record, and of a word of the log.
ghost use Rattle.std.specs.Prelude.{◌≡◌, ◌&&◌};
ghost use Rattle.command_reader.specs.Read.{command_of};
ghost use Rattle.device.specs.Sound.{sound};
ghost use Rattle.device_image.specs.Layout.{WORDS};
ghost use Rattle.device_image.specs.Image.{decode, is_image};

use command_reader::Logged;

// How many words an image has.
#[unsafe(no_mangle)]
pub extern "C" fn xhci_device_record_words() -> usize
    ensures { result ≡ WORDS }
{
    xhci_device::xhci_device_record_words()
}

#[unsafe(no_mangle)]
pub extern "C" fn xhci_device_is_usable(image: &[u64]) -> bool
    ensures { result ≡ is_image image.now && (decode image.now).usable }
{
    xhci_device::xhci_device_is_usable(image)
}

// Whether its device may be unplugged: brought up, and not unplugged since.
#[unsafe(no_mangle)]
pub extern "C" fn xhci_device_is_up(image: &[u64]) -> bool
    ensures { result ≡ is_image image.now && (decode image.now).up }
{
    xhci_device::xhci_device_is_up(image)
}

// Whether a record is one that the calls can have left.
#[unsafe(no_mangle)]
pub extern "C" fn xhci_device_is_sound(image: &[u64]) -> bool
    ensures { result ≡ is_image image.now && sound (decode image.now) }
{
    xhci_device::xhci_device_is_sound(image)
}

#[unsafe(no_mangle)]
pub extern "C" fn xhci_device_command_of(word: u32) -> Logged
    ensures { result ≡ command_of word }
{
    xhci_device::xhci_device_command_of(word)
}
