//! The formats of integers.
ghost use Rattle.std.specs.Prelude.{◌≡◌, ◌<◌, ◌*◌};
ghost use Rattle.ec_fxcode_quotients.specs.Formats.{whole_format};

use ec_fx::Format;

/// How integers of so many bytes, less than 32, are kept: they have no bits behind the point.
pub fn whole_format(signed: bool, bytes: u8) -> Format
    requires { 8 * bytes < 256 }
    ensures { result ≡ whole_format signed bytes }
{
    Format {
        signed,
        bits: 8 * bytes,
        frac: 0,
    }
}
