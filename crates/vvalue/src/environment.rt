// What is known when an expression is evaluated.

ghost use Rattle.std.specs.Prelude.{◌≡◌};
ghost use Rattle.basis.specs.Timescales.{factor};
ghost use Rattle.vbits.specs.Vectors.{of_number};
ghost use Rattle.vvalue.specs.Value as spec;

use basis::Timescale;
use std::marker::Model;
use vbits::Vec4;
use vdesign::design::Variable;
use vdesign::expression::Bounds;

/// What is known when an expression is evaluated: the values of the variables, by number, how they are declared, the time, in units of
/// the precision, and the timescale (19.8). A clause sees it as the record `Environment` of specs/Value.antt, which has the time as
/// `$time` shows it, and how many units of the precision make one in which delays are written: these are worked out where they are read.
#[derive(Drop)]
pub struct Environment<'m> {
    pub values: &'m [Vec4],
    pub variables: &'m [Variable],
    moment: u64,
    scale: Timescale,
}

impl<'m> Model for Environment<'m> {
    ghost use Rattle.basis.specs.Timescales.{factor};
    ghost use Rattle.vvalue.specs.Value as value;

    ghost Value = { value.Environment };

    ghost view = { λ m. record {
      values = m.values.now;
      variables = m.variables.now;
      time = value.written_time m.moment (factor m.scale);
      factor = factor m.scale;
    } };
}

impl<'m> Environment<'m> {
    /// What is known at a time, in units of the precision.
    pub fn new(
        values: &'m [Vec4],
        variables: &'m [Variable],
        moment: u64,
        scale: Timescale,
    ) -> Environment<'m>
        ensures { result ≡ record {
          values = values.now;
          variables = variables.now;
          time = spec.written_time moment (factor scale);
          factor = factor scale;
        } }
    {
        Environment {
            values,
            variables,
            moment,
            scale,
        }
    }

    /// What is known at time 0, where delays are written in units of the precision.
    pub fn at_zero(values: &'m [Vec4], variables: &'m [Variable]) -> Environment<'m>
        ensures { result ≡ record { values = values.now; variables = variables.now; time = 0; factor = 1 } }
    {
        Environment {
            values,
            variables,
            moment: 0,
            scale: Timescale::usual(),
        }
    }

    /// How many units of the precision make one in which delays are written.
    pub fn factor(&self) -> u64
        ensures { result ≡ self.now.factor }
    {
        self.scale.factor()
    }
}

// A time in units in which delays are written (17.7.1).
fn written_time(time: u64, factor: u64) -> u64
    ensures { result ≡ spec.written_time time factor }
{
    if factor == 0 {
        return 0;
    }
    time / factor
}

/// The value of the variable of this number; x, one bit wide, where there is none.
pub fn value_at(environment: &Environment<'_>, variable: u32) -> Vec4
    ensures { result ≡ spec.value_at environment.now variable }
{
    match environment.values.get(variable as usize) {
        Some(value) => *value,
        None => Vec4::all_x(1),
    }
}

/// The numbers of the leftmost and of the rightmost bit of the variable of this number.
pub fn bounds_of(environment: &Environment<'_>, variable: u32) -> Bounds
    ensures { result ≡ spec.bounds_of environment.now variable }
{
    let whole = Bounds {
        left: value_at(environment, variable).len() - 1,
        right: 0,
    };
    match environment.variables.get(variable as usize) {
        Some(declared) => declared.bounds.unwrap_or(whole),
        None => whole,
    }
}

/// The time, as `$time` tells it (17.7.1).
pub fn time_of(environment: &Environment<'_>) -> Vec4
    ensures { result ≡ of_number 64 environment.now.time }
{
    Vec4::from_u64(64, written_time(environment.moment, environment.factor()))
}
