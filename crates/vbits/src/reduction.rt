/// The unary reductions (IEEE 1364-2005, 5.1.11): `&`, `~&`, `|`, `~|`, `^`, `~^`.
#[derive(Clone, Copy, PartialEq, Eq, Hash)]
pub enum Reduction {
    And,
    Nand,
    Or,
    Nor,
    Xor,
    Xnor,
}
