//! The law of builds: it is proved by a function that does nothing.
ghost use Rattle.ec_build.specs.Images.{BuildsHaveOneImage};

use ec_check::programs_are_typed;
use ec_check_ports::programs_go_by_names;
use ec_lower_code::lowered_is_made_of_its_program;
use ec_select_live::valid_operations_have_places;
use ec_select_operations::needed_functions_are_written;

/// All builds of the same sources by the same map have one program and one image: the same bytes, of which the same are
/// written. So what `build` answers is a function of the texts, but for the room of lists.
pub fn builds_have_one_image()
    ensures { BuildsHaveOneImage }
{
    programs_are_typed();
    programs_go_by_names();
    lowered_is_made_of_its_program();
    valid_operations_have_places();
    needed_functions_are_written();
}
