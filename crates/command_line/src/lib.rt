//! The command line: what the arguments of the program ask for, or why they are refused.
//!
//! ```text
//! let request = read_request(alloc, &arguments)?; // the first argument is the program's name
//! ```
#![tactic(auto)]

mod argument;
mod arguments;
mod commands;
mod form;
mod given;
mod page_request;
mod profile;
mod reading_request;
mod request;
mod run_request;

pub use form::Form;
pub use page_request::{Drawn, Lines, PageRequest};
pub use request::{Request, read_request};
pub use run_request::{disturbance_name, fault_name};
