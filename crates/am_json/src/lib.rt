//! Reading a JSON value part by part, and where and why it is refused.
//!
//! [`read_json`] returns the JSON value of a file, and [`read_json_fields`] that with only some of
//! its fields. Each other function reads or checks a part of a value: an object, an array, a text,
//! a field, or a count. If the part is not as it must be, the function fails with a [`ReadError`].
//! The error says why, and points to the part with a JSON Pointer (RFC 6901), which starts at the
//! value that the function was given. [`within_field`] and [`within_item`] make the pointer start
//! at the value around that one instead, and so in the end at the whole file. From such an error,
//! [`ReadError::at`] makes the fault of the file.
//!
//! [`or_refused`] makes a [`ReadError`] of an error that says only why.
//!
//! Readers of files are proved against the definitions of this crate. These define the form of a
//! file, which says what each value is taken for and what there is to object to, in order. They
//! also define the first fault of a file, and what reading the file part by part gives.
#![tactic(auto)]

// The limit of all files.
pub mod limits;

// Why a value is refused, and at which part.
mod pointer;
mod read_error;

pub use pointer::{within_field, within_item};
pub use read_error::{ReadError, Refusal};

// The parts of a value.
mod parts;

pub use parts::{
    as_items, as_object, as_text, check_count, check_only_fields, field, or_refused,
    read_boolean_or, read_json, read_optional_items, refuse_for, required_field, required_items,
    required_text,
};

// A file of which only some fields are kept.
mod keep;
mod number;
mod read_fields;

pub use read_fields::read_json_fields;

// The items of an array, and the members of an object, one after the other.
mod each_item;

pub use each_item::{read_each_item, read_each_member, read_items_or_null, read_optional_array};

// Facts about the definitions alone.
pub mod laws;
