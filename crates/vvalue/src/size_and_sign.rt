// What an expression stands in (IEEE 1364-2005, 5.4.1, 5.5.1).

ghost use Rattle.std.specs.Prelude.{◌≡◌};
ghost use Rattle.vvalue.specs.Value as spec;
ghost use Rattle.vvalue.specs.Fits.{IsWithin};

/// The size and the sign that an expression has where it stands; the size is 1 to 64.
#[derive(Clone, Copy)]
pub struct SizeAndSign {
    pub size: u32,
    pub signed: bool,
}

/// Of operands that are compared, and of the result of those that share a size.
pub fn common(left: SizeAndSign, right: SizeAndSign) -> SizeAndSign
    requires left { IsWithin left }
    requires right { IsWithin right }
    ensures exact { result ≡ spec.common left right }
    ensures within { IsWithin result }
{
    SizeAndSign {
        size: left.size.max(right.size),
        signed: left.signed && right.signed,
    }
}
