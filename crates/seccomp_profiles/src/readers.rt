// What single values of a profile are, for those who look for its faults.

pub use crate::actions::named_number;
pub use crate::members::{items_of, whole_or};
pub use crate::parts::{read_action, read_flag, read_operator};
pub use crate::version::kernel_under;
