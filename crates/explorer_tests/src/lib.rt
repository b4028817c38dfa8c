// Tests against public calls that no program shows: values from outside, what no clause says, and that calls succeed. They stand apart so
// that a crate is proved once; the crate itself has nothing.
#![tactic(auto)]

#[cfg(test)]
mod books;
#[cfg(test)]
mod devices;
#[cfg(test)]
mod searches;
#[cfg(test)]
mod shared_books;
#[cfg(test)]
mod wheel;
#[cfg(test)]
mod workers;
