//! What a person is told where a command doesn't end well: the place in the text, what is wrong there, and what to do.
//!
//! [`explain`] quotes the lines of the text at the positions of a [`Trouble`], each below its file, line and column and
//! with a caret under the place. It adds a sentence that says what is wrong, in the words of the text, and one that says
//! what to do. What a quote is stands in `specs/Quotes`. [`usage`] tells the forms of the commands. [`coloured`] paints
//! what is told for a terminal. All sentences stand in `command_pages.rt` and in the files whose names end in `texts.rt`;
//! those on texts that aren't read in rb_slips, and those on types in rb_type_help.
#![tactic(auto)]

mod batch_parts;
mod blocks;
mod byte_order;
mod carets;
mod colours;
mod command_pages;
mod commands;
mod event_texts;
mod explaining;
mod flow_help;
mod journal_texts;
mod json_texts;
mod labels;
mod lines;
mod link_help;
mod list_help;
mod name_help;
mod name_texts;
mod object_parts;
mod object_texts;
mod outside_help;
mod outside_texts;
mod placing;
mod quotes;
mod refusal_help;
mod refusal_texts;
mod run_help;
mod service_help;
mod sheet;
mod texts;
mod trouble;
mod typing_help;
mod word_help;

pub use colours::coloured;
pub use commands::{USAGE, usage};
pub use explaining::explain;
pub use lines::{Line, line_at, line_number};
pub use placing::positions;
pub use trouble::{JournalFlaw, ReplyFlaw, Server, Trouble};
pub use word_help::is_help_option;
