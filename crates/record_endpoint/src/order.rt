// The endpoint addresses in rising order, OUT 1 to 15 and then IN 1 to 15: thirty places.
ghost use Rattle.std.specs.Prelude.{◌≡◌, ◌<◌, unwrap_or, IfSome};
ghost use Rattle.record_endpoint.specs.Order.{PLACES, place_of};

pub const PLACES: usize = 30;

// The place of an address; none for one that no endpoint can have.
pub fn place_of(address: u8) -> Option<usize>
    ensures value { unwrap_or result PLACES ≡ place_of address }
    ensures within { IfSome result (λ place. place < PLACES) }
{
    let a = address as usize;
    match address {
        1..=15 => Some(a - 1),
        129..=143 => Some(a - 114),
        _ => None,
    }
}
