//! What a command answers: its status and its texts; and how the bytes of a source are refused or
//! read, which every command on a source begins with.
#![tactic(auto)]

mod names;
mod source;
mod status;
mod stop;
mod texts;

pub use names::{DataCause, SourceCause};
pub use source::read_program;
pub use status::Status;
pub use stop::Stop;
pub use texts::{
    failed_program, no_memory_line, passed_limit, refused_data, refused_source, refused_span,
    refused_words, unread_file, value_text, write_line,
};
