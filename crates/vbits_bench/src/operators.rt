// The operators by their names, and runs of one of them.

ghost use Rattle.std.specs.Prelude.{◌≡◌, ◌≤◌, length};

use vbits::{Reduction, Vec4};

/// An operator, or a copy of an operand, which costs what a turn costs without one.
#[derive(Clone, Copy)]
pub enum Operator {
    Copy,
    CopyFree,
    Add,
    Sub,
    Mul,
    Div,
    Rem,
    Neg,
    And,
    Or,
    Xor,
    Xnor,
    Not,
    Join,
    Eq,
    Ne,
    CaseEq,
    CaseNe,
    Lt,
    Le,
    Gt,
    Ge,
    ReduceAnd,
    ReduceNand,
    ReduceOr,
    ReduceNor,
    ReduceXor,
    ReduceXnor,
    Truth,
    Shl,
    Shr,
    Ashr,
    Select,
    Put,
    Concat,
    Resize,
    ToU64,
}

// The names of the operators.
const NAMES: [(&str, Operator); 36] = [
    ("copy_free", Operator::CopyFree),
    ("add", Operator::Add),
    ("sub", Operator::Sub),
    ("mul", Operator::Mul),
    ("div", Operator::Div),
    ("rem", Operator::Rem),
    ("neg", Operator::Neg),
    ("and", Operator::And),
    ("or", Operator::Or),
    ("xor", Operator::Xor),
    ("xnor", Operator::Xnor),
    ("not", Operator::Not),
    ("join", Operator::Join),
    ("eq", Operator::Eq),
    ("ne", Operator::Ne),
    ("case_eq", Operator::CaseEq),
    ("case_ne", Operator::CaseNe),
    ("lt", Operator::Lt),
    ("le", Operator::Le),
    ("gt", Operator::Gt),
    ("ge", Operator::Ge),
    ("reduce_and", Operator::ReduceAnd),
    ("reduce_nand", Operator::ReduceNand),
    ("reduce_or", Operator::ReduceOr),
    ("reduce_nor", Operator::ReduceNor),
    ("reduce_xor", Operator::ReduceXor),
    ("reduce_xnor", Operator::ReduceXnor),
    ("truth", Operator::Truth),
    ("shl", Operator::Shl),
    ("shr", Operator::Shr),
    ("ashr", Operator::Ashr),
    ("select", Operator::Select),
    ("put", Operator::Put),
    ("concat", Operator::Concat),
    ("resize", Operator::Resize),
    ("to_u64", Operator::ToU64),
];

/// The operator of this name; of another one a copy.
pub fn operator_of(name: &str) -> Operator {
    for (word, operator) in &NAMES {
        if *word == name {
            return *operator;
        }
    }
    Operator::Copy
}

/// What it makes of operands of one length.
pub fn apply(operator: Operator, left: Vec4, right: Vec4) -> Vec4
    requires { length left.letters ≡ length right.letters }
{
    match operator {
        Operator::Add => left.add(right),
        Operator::Sub => left.sub(right),
        Operator::Mul => left.mul(right),
        Operator::Div => left.div(right),
        Operator::Rem => left.rem(right),
        Operator::Neg => left.neg(),
        Operator::And => left.and(right),
        Operator::Or => left.or(right),
        Operator::Xor => left.xor(right),
        Operator::Xnor => left.xnor(right),
        Operator::Not => left.not(),
        Operator::Join => left.join(right),
        Operator::Eq => left.eq(right),
        Operator::Ne => left.ne(right),
        Operator::CaseEq => left.case_eq(right),
        Operator::CaseNe => left.case_ne(right),
        Operator::Lt => left.lt(right),
        Operator::Le => left.le(right),
        Operator::Gt => left.gt(right),
        Operator::Ge => left.ge(right),
        Operator::ReduceAnd => left.reduce(Reduction::And),
        Operator::ReduceNand => left.reduce(Reduction::Nand),
        Operator::ReduceOr => left.reduce(Reduction::Or),
        Operator::ReduceNor => left.reduce(Reduction::Nor),
        Operator::ReduceXor => left.reduce(Reduction::Xor),
        Operator::ReduceXnor => left.reduce(Reduction::Xnor),
        Operator::Truth => Vec4::of_bit(left.truth()),
        Operator::Select => left.select(left.len() - 1, left.len() / 2),
        Operator::Resize => left.resize(right.len() / 2 + 30),
        Operator::ToU64 => Vec4::from_u64(64, left.to_u64().unwrap_or(7)),
        _ => left,
    }
}

/// What it makes of an operand whose length is free: a shift's amount, or what is written or joined.
pub fn apply_to_free(operator: Operator, left: Vec4, free: Vec4) -> Vec4 {
    match operator {
        Operator::Shl => left.shl(free),
        Operator::Shr => left.shr(free),
        Operator::Ashr => left.ashr(free),
        Operator::CopyFree => left,
        Operator::Put => {
            if free.len() <= left.len() {
                left.put(free.len() - 1, 0, free)
            } else {
                left
            }
        }
        _ => {
            if left.len() + free.len() <= 64 {
                left.concat(free)
            } else {
                left
            }
        }
    }
}

/// Whether the length of its second operand is free.
pub fn takes_free(operator: Operator) -> bool {
    match operator {
        Operator::Shl => true,
        Operator::Shr => true,
        Operator::Ashr => true,
        Operator::Put => true,
        Operator::Concat => true,
        Operator::CopyFree => true,
        _ => false,
    }
}

fn operand(len: u32, n: u64) -> Vec4
    requires some { 1 ≤ len }
    requires few { len ≤ 64 }
{
    Vec4::from_u64(len, n).with_sign(n % 2 == 0)
}

/// Runs the operator and adds the numbers of what it gave.
pub fn run(operator: Operator, turns: u64) -> u64 {
    let odd = turns | 1;
    let lefts = [
        operand(1, odd),
        operand(4, odd.wrapping_mul(3)),
        operand(8, odd.wrapping_mul(0x9E37_79B9)),
        operand(31, odd.wrapping_mul(0x85EB_CA6B_1234_5678)),
        operand(32, odd.wrapping_mul(0xC2B2_AE35_FFFF_0001)),
        operand(33, odd.wrapping_mul(0x27D4_EB2F_8765_4321)),
        operand(63, odd.wrapping_mul(0x1656_67B1_9E37_79F9)),
        operand(64, odd.wrapping_mul(0x9E37_79B9_7F4A_7C15)),
    ];
    let rights = [
        operand(1, odd),
        operand(4, odd.wrapping_mul(5)),
        operand(8, odd.wrapping_mul(0x7F4A_7C15)),
        operand(31, odd.wrapping_mul(0x94D0_49BB_1331_11EB)),
        operand(32, odd.wrapping_mul(0xBF58_476D_1CE4_E5B9)),
        operand(33, odd.wrapping_mul(0xD6E8_FEB8_6659_FD93)),
        operand(63, odd.wrapping_mul(0xA076_1D64_78BD_642F)),
        operand(64, odd.wrapping_mul(0xE703_7ED1_A0B4_28DB)),
    ];
    let frees = [
        operand(1, 0),
        operand(2, 1),
        operand(3, 5),
        operand(5, 17),
        operand(5, 9),
        operand(6, 32),
        operand(6, 62),
        operand(6, 3),
    ];
    let free = takes_free(operator);
    let mut results = [Vec4::zeros(1); 8];
    for turn in 0..turns {
        let i = (turn % 8) as usize;
        let left = lefts[i];
        let right = rights[i];
        if free {
            results[i] = apply_to_free(operator, left, frees[i]);
        } else if left.len() == right.len() {
            results[i] = apply(operator, left, right);
        }
    }
    let mut sum = 0u64;
    for result in results {
        sum = sum.wrapping_add(result.to_u64().unwrap_or(result.len() as u64));
    }
    sum
}
