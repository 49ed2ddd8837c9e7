//! The law of texts: it is proved by a function that does nothing.
ghost use Rattle.ec_commands_compile.specs.Builds.{BuildsHaveOneText};

use ec_build::builds_have_one_image;

/// The named files have one text that `build` writes, or none.
pub fn builds_have_one_text()
    ensures { BuildsHaveOneText }
{
    builds_have_one_image();
}
