// What the code of an expression says.

ghost use Rattle.expression_code.specs.Laws as laws;

/// The law of code, which does nothing: where each value has the size and the sign of its variable (4.3.1, 4.8), the value of an
/// expression's code is that of the expression: in a context, by itself, as the right side of an assignment (5.5.3) and as the amount of
/// a delay (9.7.1). In a context it is enough that this holds of the variables that the expression reads. Guarded code has the
/// expression's value or none.
pub fn expression_code_law()
    ensures context { laws.IsValueInContext }
    ensures reads { laws.IsValueByReads }
    ensures itself { laws.IsSelfDeterminedValue }
    ensures right_side { laws.IsRightSide }
    ensures delay { laws.IsDelay }
    ensures guarded { laws.IsGuardedValue }
    ensures guarded_right_side { laws.IsGuardedRightSide }
{}
