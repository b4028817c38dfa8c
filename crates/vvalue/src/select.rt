// Bits and parts of variables, and what is joined (IEEE 1364-2005, 5.1.14, 5.2.1).

ghost use Rattle.std.specs.Prelude.{◌≡◌, ◌≤◌};
ghost use Rattle.vbits.specs.Letters as letters;
ghost use Rattle.vbits.specs.Vectors.{sign_letter};
ghost use Rattle.vvalue.specs.Value as spec;

use crate::environment::{Environment, bounds_of, value_at};
use vbits::{Bit4, Vec4};
use vdesign::expression::Bounds;

/// The most bits of a value.
const WIDEST: u32 = 64;

/// Whether a letter is 1.
pub fn is_one(letter: Bit4) -> bool
    ensures { result ≡ letters.is_one letter }
{
    match letter {
        Bit4::Zero => false,
        Bit4::One => true,
        Bit4::X => false,
        Bit4::Z => false,
    }
}

// How far the bit of this number stands from the rightmost, where there is one.
pub(crate) fn place_in(bounds: Bounds, number: u64) -> Option<u64>
    ensures { result ≡ spec.place_in bounds number }
{
    let (left, right) = (u64::from(bounds.left), u64::from(bounds.right));
    if right <= left {
        if right <= number && number <= left {
            Some(number - right)
        } else {
            None
        }
    } else if left <= number && number <= right {
        Some(right - number)
    } else {
        None
    }
}

// The letter at this place; x where there is none.
fn letter_at(value: Vec4, place: Option<u64>) -> Bit4
    ensures { result ≡ spec.letter_at value place }
{
    match place {
        None => Bit4::X,
        Some(place) => {
            if place < u64::from(value.len()) {
                value.bit(place as u32)
            } else {
                Bit4::X
            }
        }
    }
}

// The bit of this number; x where there is none.
fn bit_letter(value: Vec4, bounds: Bounds, number: u64) -> Bit4
    ensures { result ≡ spec.bit_letter value bounds number }
{
    letter_at(value, place_in(bounds, number))
}

/// Whether it is signed and its leftmost letter is 1.
pub fn is_negative(value: Vec4) -> bool
    ensures { result ≡ letters.is_one (sign_letter value) }
{
    if !value.signed() {
        return false;
    }
    is_one(value.bit(value.len() - 1))
}

// The number that an index is; none where it is unknown or negative.
pub(crate) fn index_in(value: Vec4) -> Option<u64>
    ensures { result ≡ spec.index_in value }
{
    if is_negative(value) {
        None
    } else {
        value.to_u64()
    }
}

/// The bit of a value that an index gives, by its bounds (5.2.1).
pub fn indexed_bit(value: Vec4, bounds: Bounds, index: Vec4) -> Vec4
    ensures { result ≡ spec.indexed_bit value bounds index }
{
    let letter = match index_in(index) {
        Some(number) => bit_letter(value, bounds, number),
        None => Bit4::X,
    };
    Vec4::of_bit(letter)
}

/// `name[index]`
pub fn bit_value(environment: &Environment<'_>, variable: u32, index: Vec4) -> Vec4
    ensures { result ≡ spec.bit_value environment.now variable index }
{
    indexed_bit(
        value_at(environment, variable),
        bounds_of(environment, variable),
        index,
    )
}

/// How many bits a part has.
pub fn part_size(bounds: Bounds) -> u32
    ensures size { result ≡ spec.part_size bounds }
    ensures some { 1 ≤ result }
    ensures few { result ≤ 64 }
{
    let apart = bounds.left.max(bounds.right) - bounds.left.min(bounds.right);
    apart.min(WIDEST - 1) + 1
}

// The number of the bit that stands so far from the right one of these bounds.
fn number_of_bit(bounds: Bounds, place: u32) -> u64
    ensures { result ≡ spec.number_of_bit bounds place }
{
    if bounds.right <= bounds.left {
        u64::from(bounds.right) + u64::from(place)
    } else {
        u64::from(bounds.right.saturating_sub(place))
    }
}

/// `name[left:right]`
pub fn part_value(environment: &Environment<'_>, variable: u32, part: Bounds) -> Vec4
    ensures { result ≡ spec.part_value environment.now variable part }
{
    part_of(
        value_at(environment, variable),
        bounds_of(environment, variable),
        part,
    )
}

/// A part of a value, by its bounds (5.2.1).
pub fn part_of(value: Vec4, bounds: Bounds, part: Bounds) -> Vec4
    ensures { result ≡ spec.part_of value bounds part (spec.part_size part) }
{
    let mut read = Vec4::of_bit(bit_letter(value, bounds, number_of_bit(part, 0)));
    for place in 1..part_size(part) {
        let letter = bit_letter(value, bounds, number_of_bit(part, place));
        read = Vec4::of_bit(letter).concat(read);
    }
    read
}

/// `{left, right}`
pub fn joined_value(left: Vec4, right: Vec4) -> Vec4
    ensures { result ≡ spec.joined_value left right }
{
    let room = WIDEST - right.len();
    if room == 0 {
        return right.with_sign(false);
    }
    left.resize(left.len().min(room)).concat(right)
}

/// `{count{value}}`
pub fn repeated_value(count: u32, value: Vec4) -> Vec4
    ensures { result ≡ spec.repeated_value count value }
{
    let mut all = value.with_sign(false);
    for _ in 0..count.saturating_sub(1) {
        all = joined_value(value, all);
    }
    all
}
