// The drivers, guards, modes and code of a file, read one after the other into the rows of a table's arrays.
// Promises: each reads what its codec reads at the front of the bytes that are left, and puts that into its row, or gives its refusal.
// Builds on fields and on the layout.
#![tactic(auto)]

mod code_rows;
mod driver_rows;
mod guard_rows;
mod mode_rows;

pub use code_rows::code;
pub use driver_rows::drivers;
pub use guard_rows::guards;
pub use mode_rows::modes;
