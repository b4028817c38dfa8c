// The sum of the shares that the members of a list have by their places (specs/Sums.antt): what a hash is fed, kept up to date as members
// change.

ghost use Rattle.std.specs.Prelude.{◌≡◌};
ghost use Rattle.vkernel.specs.Sums as spec;

use vstrata::digest::mix;

// 2^32.
const HALF: u64 = 4_294_967_296;

// A word, its halves exchanged.
fn swapped(word: u64) -> u64
    ensures { result ≡ spec.swapped word }
{
    word % HALF * HALF + word / HALF
}

// One word more, its halves exchanged.
fn turned(key: u64, word: u64) -> u64
    ensures { result ≡ spec.turned key word }
{
    swapped(mix(key, word))
}

// The square, the key added, its halves exchanged.
fn squared(key: u64, word: u64) -> u64
    ensures { result ≡ spec.squared key word }
{
    swapped(word.wrapping_mul(word).wrapping_add(key))
}

// The share of these words by the key of their place.
fn share_by(key: u64, first: u64, second: u64) -> u64
    ensures { result ≡ spec.share_by key first second }
{
    squared(key, squared(key, turned(turned(key, first), second)))
}

/// The share of a member that two words tell, by its place.
pub fn share(place: u64, first: u64, second: u64) -> u64
    ensures { result ≡ spec.share place first second }
{
    share_by(mix(place, 1), first, second)
}

/// A sum with one share in place of another.
pub fn with_share(sum: u64, old: u64, new: u64) -> u64
    ensures { result ≡ spec.with_share sum old new }
{
    sum.wrapping_sub(old).wrapping_add(new)
}
