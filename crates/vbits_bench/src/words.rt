// One call of `vbits` by its words: names, numbers, and vectors as their letters from the left, behind an `s` where signed.

ghost use Rattle.std.specs.Prelude.{◌≤◌, IfSome};

use crate::operators::{apply, apply_to_free, operator_of, takes_free};
use vbits::{Bit4, Vec4};

fn letter_of(byte: u8) -> Option<Bit4> {
    match byte {
        b'0' => Some(Bit4::Zero),
        b'1' => Some(Bit4::One),
        b'x' => Some(Bit4::X),
        b'z' => Some(Bit4::Z),
        _ => None,
    }
}

// The vector of these letters, leftmost first; none where there are none, too many, or others.
fn vector_of(letters: &[u8]) -> Option<Vec4> {
    let (first, rest) = letters.split_first()?;
    let mut vector = Vec4::of_bit(letter_of(*first)?);
    for byte in rest {
        let letter = Vec4::of_bit(letter_of(*byte)?);
        if vector.len() + letter.len() > 64 {
            return None;
        }
        vector = vector.concat(letter);
    }
    Some(vector)
}

// An operand: its letters, behind an `s` where it is signed.
fn operand_of(word: &str) -> Option<Vec4> {
    match word.as_bytes().split_first() {
        Some((b's', letters)) => Some(vector_of(letters)?.with_sign(true)),
        _ => vector_of(word.as_bytes()),
    }
}

fn number_of(word: &str) -> Option<u64> {
    word.parse::<u64>().ok()
}

// A place in a vector, or a length of one.
fn count_of(word: &str) -> Option<u32> {
    word.parse::<u32>().ok()
}

// A length that a vector may have.
fn length_of(word: &str) -> Option<u32>
    ensures some { IfSome result (λ n. 1 ≤ n) }
    ensures few { IfSome result (λ n. n ≤ 64) }
{
    let length = count_of(word)?;
    if 1 <= length && length <= 64 {
        Some(length)
    } else {
        None
    }
}

// What a constructor makes, whose first number is a length.
fn value_of(name: &str, length: &str, number: &str) -> Option<Vec4> {
    let length = length_of(length)?;
    match name {
        "zeros" => Some(Vec4::zeros(length)),
        "all_x" => Some(Vec4::all_x(length)),
        "all_z" => Some(Vec4::all_z(length)),
        _ => Some(Vec4::from_u64(length, number_of(number)?)),
    }
}

fn select(vector: Vec4, high: u32, low: u32) -> Option<Vec4> {
    if low <= high && high < vector.len() {
        Some(vector.select(high, low))
    } else {
        None
    }
}

fn put(vector: Vec4, high: u32, low: u32, part: Vec4) -> Option<Vec4> {
    if low <= high && high < vector.len() && part.len() == high - low + 1 {
        Some(vector.put(high, low, part))
    } else {
        None
    }
}

fn bit(vector: Vec4, place: u32) -> Option<Vec4> {
    if place < vector.len() {
        Some(Vec4::of_bit(vector.bit(place)))
    } else {
        None
    }
}

// What the operator of this name makes of the operands, where they go together.
fn result_of(name: &str, left: Vec4, right: Vec4) -> Option<Vec4> {
    let operator = operator_of(name);
    if takes_free(operator) {
        return Some(apply_to_free(operator, left, right));
    }
    if left.len() == right.len() {
        Some(apply(operator, left, right))
    } else {
        None
    }
}

/// The result of the call that these words name, an operator with one operand too; none where they don't go together.
pub fn value_of_call(words: &[&str]) -> Option<Vec4> {
    match words {
        ["zeros" | "all_x" | "all_z", length] => value_of(words[0], length, "0"),
        ["from_u64", length, number] => value_of(words[0], length, number),
        ["bit", vector, place] => bit(operand_of(vector)?, count_of(place)?),
        ["resize", vector, length] => Some(operand_of(vector)?.resize(length_of(length)?)),
        ["select", vector, high, low] => {
            select(operand_of(vector)?, count_of(high)?, count_of(low)?)
        }
        ["put", vector, high, low, part] => put(
            operand_of(vector)?,
            count_of(high)?,
            count_of(low)?,
            operand_of(part)?,
        ),
        [name, only] => {
            let operand = operand_of(only)?;
            result_of(name, operand, operand)
        }
        [name, left, right] => result_of(name, operand_of(left)?, operand_of(right)?),
        _ => None,
    }
}
