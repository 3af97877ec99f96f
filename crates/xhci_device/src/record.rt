// What a caller asks of a record.
ghost use Rattle.std.specs.Prelude.{◌≡◌, ◌&&◌};
ghost use Rattle.device_image.specs.Layout.{WORDS};
ghost use Rattle.device_image.specs.Image.{decode, is_image};

// How many words an image has.
pub fn xhci_device_record_words() -> usize
    ensures { result ≡ WORDS }
{
    device_image::WORDS
}

pub fn xhci_device_is_usable(image: &[u64]) -> bool
    ensures { result ≡ is_image image.now && (decode image.now).usable }
{
    let d = device_image::decode(image);
    d.usable
}

// Whether its device may be unplugged: brought up, and not unplugged since.
pub fn xhci_device_is_up(image: &[u64]) -> bool
    ensures { result ≡ is_image image.now && (decode image.now).up }
{
    let d = device_image::decode(image);
    d.up
}
