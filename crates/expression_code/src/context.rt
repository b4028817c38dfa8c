// What an expression stands in (IEEE 1364-2005, 5.4.1, 5.5.1).

ghost use Rattle.std.specs.Prelude.{◌≡◌};
ghost use Rattle.expression_code.specs.CodeOf.{is_same_context};
ghost use Rattle.vvalue.specs.Value as spec;

use std::marker::Model;

/// The size, 1 to 64, and the sign that an expression has where it stands. A clause sees it as the record `SizeAndSign` of `vvalue`.
#[derive(Clone, Copy)]
pub struct Context {
    pub size: u32,
    pub signed: bool,
}

impl Model for Context {
    ghost use Rattle.std.specs.Prelude.{◌≤◌};
    ghost use Rattle.vvalue.specs.declared.size_and_sign.SizeAndSign.{SizeAndSign};

    ghost Value = { SizeAndSign };

    ghost view = { λ c. record { size = c.size; signed = c.signed } };

    ghost invariant = { λ c. (1 ≤ c.size) × (c.size ≤ 64) };

    ghost inverse = { λ v. record { size = v.size; signed = v.signed } };

    ghost inverse_ok = { λ c h. λ i. c };
}

/// The most bits of a value.
pub(crate) const WIDEST: u32 = 64;

/// Of what is one unsigned bit.
pub(crate) const ONE_BIT: Context = Context {
    size: 1,
    signed: false,
};

/// Of `$time` (17.7.1).
pub(crate) const TIME: Context = Context {
    size: 64,
    signed: false,
};

// Whether both are the same.
pub(crate) fn is_same(one: Context, other: Context) -> bool
    ensures { result ≡ is_same_context one other }
{
    one.size == other.size && one.signed == other.signed
}

// Of operands that are compared, and of the result of those that share a size.
pub(crate) fn common(left: Context, right: Context) -> Context
    ensures { result ≡ spec.common left right }
{
    Context {
        size: left.size.max(right.size),
        signed: left.signed && right.signed,
    }
}
