// Readers of the front of a text: a word up to a byte, given bytes.

ghost use Rattle.std.specs.Prelude.{◌≡◌, ◌++◌, IfSome};
ghost use Rattle.report_text.specs.Inner.Fronts.{EachRest, EachSides, IsCut};

use memchr::memchr;

/// What stands before the first such byte, and what follows it.
pub fn cut(text: &[u8], byte: u8) -> Option<(&[u8], &[u8])>
    ensures read { IfSome result (λ p. IsCut byte text.now p.0.now p.1.now) }
    ensures each { EachSides byte text.now result }
{
    let place = memchr(byte, text)?;
    Some((&text[..place], &text[place + 1..]))
}

/// What follows these bytes at the front.
pub fn after<'a>(text: &'a [u8], prefix: &[u8]) -> Option<&'a [u8]>
    ensures read { IfSome result (λ rest. text.now ≡ prefix.now ++ rest.now) }
    ensures each { EachRest (λ rest. text.now ≡ prefix.now ++ rest) result }
{
    text.strip_prefix(prefix)
}
