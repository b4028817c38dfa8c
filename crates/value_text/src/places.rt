// Texts in a width.

ghost use Rattle.std.specs.Prelude.{◌≡◌, ◌++◌, OnOk};
ghost use Rattle.value_text.specs.ValueText as spec;

use basis::NoMemory;

/// Puts what is shown on the right of so many places, with this letter in those before it. The error is want of memory, E901; nothing
/// is said of the text then.
pub fn put_filled(
    text: &mut Vec<u8>,
    letter: u8,
    places: usize,
    shown: &[u8],
) -> Result<(), NoMemory>
    ensures { OnOk result (text.new.items ≡ text.old.items ++ spec.filled_in letter places shown.now) }
{
    let mut taken = shown.len();
    while taken < places {
        text.push(letter)?;
        taken += 1;
    }
    text.extend_from_slice(shown)?;
    Ok(())
}

/// The same, with blanks before it. The error is E901, as there.
pub fn put_right(text: &mut Vec<u8>, places: usize, shown: &[u8]) -> Result<(), NoMemory>
    ensures { OnOk result (text.new.items ≡ text.old.items ++ spec.right_in places shown.now) }
{
    put_filled(text, b' ', places, shown)
}

/// Puts digits in so many places, with zeros before them; a minus comes before the zeros. The error is E901, as there.
pub fn put_zeros(text: &mut Vec<u8>, places: usize, shown: &[u8]) -> Result<(), NoMemory>
    ensures { OnOk result (text.new.items ≡ text.old.items ++ spec.zeros_in places shown.now) }
{
    let Some((first, digits)) = shown.split_first() else {
        return put_filled(text, b'0', places, shown);
    };
    if *first == b'-' {
        text.push(b'-')?;
        put_filled(text, b'0', places.saturating_sub(1), digits)
    } else {
        put_filled(text, b'0', places, shown)
    }
}
