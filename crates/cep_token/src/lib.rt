//! The tokens of a pattern's text.
#![tactic(auto)]

mod content;
mod piece;
mod scan;
mod token;

pub use content::{content_of, inside};
pub use piece::value_of;
pub use scan::tokens;
pub use token::{
    BAD_CHARACTER, GREATEST_NUMBER, NUMBER_TOO_LARGE, OPEN_TEXT, Token, TokenFault, TokenKind,
    TokenList,
};
