//! Whether a certificate has the shape of a history's plan, and whether its order respects the order in which
//! calls ended and began.
#![tactic(auto)]

mod fault;
mod order;
mod places;
mod shape;

pub use fault::{OrderFault, ShapeFault};
pub use nfs_history;
pub use order::{check_order, check_order_of_calls};
pub use shape::{check_shape, check_shape_of_calls};
