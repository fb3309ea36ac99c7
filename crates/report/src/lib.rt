// Reports: a circuit's text, and the claims of what is found of it.
#![tactic(auto)]

mod laws;
mod lent;
mod put;
mod reading;
mod whole;

pub use laws::{report_cut_short, report_is_read};
pub use lent::{Unput, put_into};
pub use put::text_of;
pub use reading::{Report, read};
pub use whole::write;
