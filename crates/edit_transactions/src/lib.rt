//! Several edits of a fabric as one: all are made, or none is.
#![tactic(auto)]

mod spared;
mod transaction;

pub use spared::SparedFabric;
pub use transaction::{RefusedEdit, TRANSACTION_EDITS, a_transaction_of_one_is_its_edit, edit_all};
