// Names of variables.

use vdesign::design::Design;

/// The name of the variable of this number.
pub fn name_of(design: &Design, number: usize) -> &[u8] {
    match design.variables.get(number) {
        None => b"",
        Some(variable) => &variable.name,
    }
}
