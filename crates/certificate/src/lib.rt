//! Certificates: tables that show without a search that a document is ruled out (provably not linearizable), as a text.
//!
//! ```text
//! // The lines of JSON that FORMATS describes; none if the document of the call isn't found to be ruled out at it.
//! let text = certificate_text(alloc, &subject)?;
//! ```
#![tactic(auto)]

mod state;
mod text;

pub use text::{CertificateSubject, certificate_text};
