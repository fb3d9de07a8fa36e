//! The fields of a request's body (RFC 8259): what each may be, its default, and the first that breaks its rule.
//!
//! `read_object` reads the object of a body, `refuse_unknown_in_schedule` finds the first member that no table has, and
//! `read_content` reads the content of a schedule by the table of its fields (specs/Contents). Each answers what its definition
//! says, the value or the refusal; want of memory alone says nothing. Routes, paths and queries are known elsewhere.
#![tactic(auto)]

mod body;
mod content;
mod errand;
mod fault;
mod members;
mod numbers;
mod objects;
mod part;
mod rows;
mod timing;
mod unknown;
mod words;

pub use body::read_object;
pub use content::read_content;
pub use fault::{BAD_REQUEST, DecodeFault, refused};
pub use members::{name_at, token_at};
pub use part::Part;
pub use rows::{or_default, or_none, required};
pub use unknown::{refuse_unknown_in_group, refuse_unknown_in_schedule};
pub use words::{around, behind, has_characters, name_word, one_of, text_word, token_word};
