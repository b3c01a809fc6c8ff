// The lexical layer of a reader of clause files: lines, words, numbers and the header line of a text of bytes.
#![tactic(auto)]

mod headers;
mod lines;
mod numbers;
mod part;
mod pieces;
mod words;

pub use headers::{Header, header_line};
pub use numbers::number;
pub use part::Part;
pub use pieces::Cut;
pub use words::Words;
