//! The bytes of an image.
ghost use Rattle.ec_space.specs.Bytes.{AreBytes};

use ec_avr::Image;

fn bytes_are_bytes(bytes: &[u8])
    ensures { AreBytes bytes.now }
{
    let _many = bytes.len();
}

/// An image holds bytes. This is what the laws of placed programs ask of it; the function does nothing.
pub fn image_holds_bytes(image: &Image)
    ensures { AreBytes image.now.bytes.items }
{
    bytes_are_bytes(image.bytes.as_slice());
}
