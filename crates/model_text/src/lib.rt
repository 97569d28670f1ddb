//! Texts of models and plans: reading and printing.
#![tactic(auto)]

mod draft;
mod draft_lines;
mod draft_reader;
mod end_line;
mod graph_words;
mod line_kind;
mod line_words;
mod model_build;
mod model_lines;
mod model_print;
mod model_reader;
mod path_reader;
mod path_words;
mod plan_print;
mod printed_laws;
mod row_words;

pub use end_line::model_end;
pub use line_text::{Kind, LineWriter, ReadError, TextFault};
pub use model_print::print_model;
pub use model_reader::read_model;
pub use path_reader::read_plan;
pub use path_words::{arcs_of, name_of, take_path};
pub use plan_print::{print_path, print_plan};
pub use printed_laws::printed_text_laws;
