// Trees as texts. In goes a `TextTree` with the words of its text. Out come the words that it spells, by `spell`, and whether the
// grammar allows it, by `fits`. The law: a tree derives the words that it spells, where it fits (`DerivesText` of `vast`).
#![tactic(auto)]

pub mod expression_fits;
pub mod expression_spelling;
pub mod fitting;
pub mod module_parts_fit;
pub mod module_parts_spelling;
pub mod spelling;
pub mod statement_fits;
pub mod statement_parts_fit;
pub mod statement_parts_spelling;
pub mod statement_spelling;
pub mod text_spelling;

pub use fitting::fits;
pub use text_spelling::spell;
