//! The point of a public key (RFC 5480, 2.2).

ghost use Rattle.std.specs.Prelude.{◌≡◌, length};
ghost use Rattle.cert_view.specs.Keys.{point_of};

use key_device::Point;

fn coordinate(bytes: &[u8]) -> [u8; 32]
    requires { length bytes.now ≡ 32 }
    ensures { result ≡ bytes.now }
{
    let mut coordinate = [0; 32];
    coordinate.copy_from_slice(bytes);
    coordinate
}

/// The point of the body of a BIT STRING, in the uncompressed form.
pub(crate) fn point_of(body: &[u8]) -> Option<Point>
    ensures { result ≡ point_of body.now }
{
    match body {
        [0, 4, rest @ ..] if rest.len() == 64 => {
            let (x, y) = rest.split_at(32);
            let (x, y) = (coordinate(x), coordinate(y));
            Some(Point { x, y })
        }
        _ => None,
    }
}
