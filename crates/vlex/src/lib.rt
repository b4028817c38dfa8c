// Text to tokens. In: the text of the files. Out: its tokens in order, each with its kind, its bytes
// and its place, less attributes. The law: `tokens` gives the one list that meets `Lexed`, the relation
// between a text and its tokens, and refuses only a text that no list meets it with.
#![tactic(auto)]

mod attributes;
mod bytes;
mod delay;
pub mod digits;
mod fault;
mod form;
mod front;
mod kind;
pub mod law;
mod lexer;
mod list;
mod number;
mod text;

pub use fault::LexFault;
pub use kind::TokenKind;
pub use lexer::tokens;
pub use list::Tokens;
