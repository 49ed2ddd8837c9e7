//! What a placed program does: the machine from every reset state on, beside the source; and that the lowered operations of
//! valid programs have code.
#![tactic(auto)]

mod bytes;
mod laws;

pub use bytes::image_holds_bytes;
pub use laws::{
    accesses_stay_in_spaces, images_run, images_run_as_sources, images_show_their_sources,
    kinds_are_told, lowered_programs_have_code, placed_are_laid_out, programs_show_their_sources,
    shortened_code_is_valid,
};
