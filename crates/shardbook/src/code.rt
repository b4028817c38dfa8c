// The code of a state: a hash by a fixed seed.

ghost use Rattle.std.specs.Prelude.{◌≡◌};
ghost use Rattle.shardbook.specs.Inner.Codes.{code_of_writes};

use std::hash::{FoldHasher, Hash, Hasher};

// The state's code. Equal states have equal codes, others mostly don't.
#[tactic(auto, unfolding(crate::specs::Inner::Codes::code_of_writes))]
pub(crate) fn code_of<S: Hash>(state: &S) -> u64
    ensures { result ≡ code_of_writes (S.hash_input state.now) }
{
    let mut hasher = FoldHasher::default();
    state.hash(&mut hasher);
    hasher.finish()
}
