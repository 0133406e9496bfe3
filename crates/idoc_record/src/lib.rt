//! The fixed records of the IDoc interface: the control record EDI_DC40 and the data record EDI_DD40.
//!
//! Contract: a line is read exactly where it is such a record, and the first fault in the stated order is named
//! exactly where it comes; a record is written in full width, and its line is read as it again. The definitions are in
//! `specs/`: `ControlField` (the layout), `Parts` (texts at places), `Control`, `Data`, `Digits`, `Written`.
#![tactic(auto)]

mod control;
mod control_field;
mod data;
mod fault;
mod parts;
mod place;
mod span;
mod writing;

pub use control::{Control, read_control};
pub use control_field::ControlField;
pub use data::{Data, read_data};
pub use fault::RecordFault;
pub use place::Place;
pub use span::Span;
pub use writing::{write_control, write_data};
