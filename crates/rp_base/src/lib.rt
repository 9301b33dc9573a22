//! The ground of `rpy`: texts, values, names, kinds of exceptions, and the traits of the outside.
#![tactic(auto)]

mod files;
mod identifiers;
mod kind;
mod memory;
mod memory_files;
mod memory_sink;
mod meter;
mod names;
mod native;
mod operator;
mod sink;
mod text;
mod value;
pub mod word;

pub use files::{Failed, Files, NoFile};
pub use identifiers::{LONGEST_NAME, identifier, is_identifier_word, is_keyword};
pub use kind::{Kind, is_kind};
pub use memory::Memory;
pub use memory_files::{MemFiles, SureFiles};
pub use memory_sink::{MemSink, SureSink};
pub use meter::Meter;
pub use names::{Names, word_of};
pub use native::NativeId;
pub use operator::{BinOp, CmpOp, UnOp};
pub use rp_hash::Seed;
pub use sink::Sink;
#[doc(hidden)]
pub use text::Letters;
pub use text::{Characters, Printed, Text, add_ascii, ascii_at, ascii_slice};
pub use value::{ClassTag, Line, Name, Oid, Op, OpEnd, Raised, Rock, Side, Status, Value};
