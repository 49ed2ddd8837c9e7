//! How many low bytes of each temporary are needed: at the labels of a function, and of the result of each operation.
//!
//! `Needs.antt` of `ec_select_operations` has the meaning. A table has a row of bytes for each label, with a byte for
//! each place of the function's temporaries. [`live`] goes over the operations from the last to the first until the
//! table no longer grows, [`wanted`] tells what the code of each operation is to compute, and [`kept`] what calls keep.
#![tactic(auto)]

mod calls;
mod labels;
mod laws;
mod needs;
mod rows;
mod table;

pub use calls::kept;
pub use labels::{live, wanted};
pub use laws::valid_operations_have_places;
pub use needs::before;
pub use table::LabelNeeds;
