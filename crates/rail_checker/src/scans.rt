//! Places that were found as numbers of 32 bits.

ghost use Rattle.std.specs.Prelude.{◌≡◌, ◌<◌, ◌^◌, IfSome};

/// A place below 2^32 as a number.
pub(crate) fn number(place: Option<usize>) -> Option<u32>
    requires { IfSome place (λ n. n < 2 ^ 32) }
    ensures { result ≡ place }
{
    match place {
        Some(place) => Some(place as u32),
        None => None,
    }
}
