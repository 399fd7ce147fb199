// The declared sensors, actuators and tasks of a file, read one after the other into the rows of a table's arrays.
// Promises: each reads what its codec reads at the front of the bytes that are left, and puts that into its row, or gives its refusal.
// Builds on fields and on the layout.
#![tactic(auto)]

mod actuator_rows;
mod roles;
mod sensor_rows;
mod task_rows;

pub use actuator_rows::actuators;
pub use roles::mark;
pub use sensor_rows::sensors;
pub use task_rows::{Behind, tasks};
