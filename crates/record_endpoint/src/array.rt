// An array that begins with a list.
ghost use Rattle.std.specs.Prelude.{◌≡◌, ◌≤◌, length};
ghost use Rattle.record_endpoint.specs.Endpoint.{padded};

// A list in an array, blanks after it.
pub fn padded<T: Copy, const N: usize>(xs: &[T], blank: T) -> [T; N]
    requires { length xs.now ≤ N }
    ensures { result ≡ padded N blank xs.now }
{
    let mut all = [blank; N];
    all[..xs.len()].copy_from_slice(xs);
    all
}
