// The law of comparisons: a text is compared byte for byte.

ghost use Rattle.std.specs.Prelude.{◌≡◌, ℕ, List};
ghost use Rattle.byte_sinks.specs.Comparing.{IsWhole};

/// The law of `Expected`, which does nothing: nothing of a text is left where just that text has come.
pub fn expected_is_whole()
    ensures whole { (text : List ℕ) → IsWhole text text }
    ensures only { (text expected : List ℕ) → IsWhole text expected → text ≡ expected }
{}
