// What is known at a time, to the expressions of a design.

ghost use Rattle.std.specs.Prelude.{◌≡◌};
ghost use Rattle.vmodel.specs.Step as spec;

use vbits::Vec4;
use vdesign::design::Design;
use vvalue::environment::Environment;

/// What is known at a time, in units of the precision, where the variables have these values.
pub fn environment_at<'m>(design: &'m Design, values: &'m [Vec4], time: u64) -> Environment<'m>
    ensures { result ≡ spec.environment_at design.now values.now time }
{
    Environment::new(values, &design.variables, time, design.scale)
}
