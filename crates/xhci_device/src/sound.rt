// Whether a record is sound.
ghost use Rattle.std.specs.Prelude.{◌≡◌, ◌&&◌};
ghost use Rattle.device.specs.Sound.{sound};
ghost use Rattle.device_image.specs.Image.{decode, is_image};

// Whether a record is one that the calls can have left.
pub fn xhci_device_is_sound(image: &[u64]) -> bool
    ensures { result ≡ is_image image.now && sound (decode image.now) }
{
    let d = device_image::decode(image);
    d.sound()
}
