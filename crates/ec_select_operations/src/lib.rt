//! The code of a program's operations: numbers, pointers, objects of both banks, ports, jumps, calls and returns.
//!
//! `specs/Code.antt` has the code of each operation, `specs/Needs.antt` how many bytes of each temporary it computes,
//! `specs/Homes.antt` and `specs/Places.antt` where temporaries and objects stand, `specs/Pointers.antt` pointers as
//! bytes, `specs/Routines.antt` which operations may have code that stands once, and `specs/Written.antt` the code of a
//! list of operations. The laws in `laws` tell that the code which is written with the bytes that are needed is the code
//! of the operations, and that operations of one shape have one routine.
//!
//! [`Linking`] names the core. On one whose flash goes past the first 65,536 bytes pointers of three bytes have whole
//! addresses, which code loads through, moves and compares as such, and far objects are loaded by them.
#![tactic(auto)]

mod bounds;
mod calls;
mod families;
mod fixed;
mod homes;
mod in_z;
mod laws;
mod numbers;
mod operations;
mod pointers;
mod routines;
mod stores;
mod tests;
mod transfers;
mod types;
mod waiting;

pub use calls::{Linking, call, finish};
pub use ec_select_bytes::{
    CellAccess, PortAccess, load_cell, read_cell_port, read_port, store_cell, write_cell_port,
    write_port,
};
pub use families::{
    BinaryOperation, Family, Operands, Told, binary, branch, branch_on, combine, convert,
    divide_numbers, family_of, jump_on, move_number, multiply_bytes, operator, shift_by_count,
    tell, unary,
};
pub use fixed::{fixed_binary, fixed_conversion, fixed_unary, is_apart, is_counted, takes_count};
pub use homes::{Homes, home, index_place};
pub use in_z::{go_to_member, load_by, load_or_fetch, store_by};
pub use laws::{needed_code_is_written, needed_functions_are_written, one_shape_has_one_routine};
pub use numbers::{
    compared_bytes, integer_binary, joined_bytes, masked_bytes, moves_pointer, number_at,
    number_taken, numbered, right_taken, takes_whole,
};
pub use operations::{Flags, all_operations, function, operation};
pub use pointers::{
    Offset, Pointers, combine_pointers, has_tables, load_index, load_object, load_through,
    move_by_told, move_pointer, move_to_member, pointer_binary, pointer_conversion, put_address,
};
pub use routines::{called, routine};
pub use stores::store_object;
pub use types::{is_fixed, is_pointer, is_whole};
