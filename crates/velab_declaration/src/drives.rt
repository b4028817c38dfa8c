// What drives the bits of nets (IEEE 1364-2005, 4.2.1, 4.6, 6.1): looked at in the finished design, action by action.

ghost use Rattle.std.specs.Prelude.{◌≡◌, ◌<◌, ◌+◌, ℕ, [], List, slice_get, unwrap_or, None, IfOk, OnOk};
ghost use Rattle.vbits.specs.Vectors.{filled};
ghost use Rattle.basis.specs.Reasons.{IfFault};
ghost use Rattle.vdesign.specs.Design as design;
ghost use Rattle.velab_declaration.specs.ActionFlaws.{blank_environment};
ghost use Rattle.velab_declaration.specs.Drives as spec;
ghost use Rattle.velab_declaration.specs.Drives.{Place, drivers_fault, places_from, places_of, places_of_all, driven_by, driven_by_all};
ghost use Rattle.velab_declaration.specs.DriveMarks.{AreMarks, Marks, Tells, mark_of, with_mark, size_in, starts_from};
ghost use Rattle.velab_expr.specs.Rules.{IsBroken};

use crate::right::is_net;
use crate::width::{blanks, word_at};
use basis::{NoMemory, OrMemory};
use std::alloc::Global;
use vbits::{Bit4, Vec4};
use vdesign::action::{Action, Target};
use vdesign::design::Variable;
use velab_expr::fault::{ElabFault, Rule};
use vvalue::environment::Environment;
use vvalue::target::{Span, span_of, variable_of};

// The marks of each variable while nothing drives it: a letter a bit, z.
fn no_marks(alloc: Global, variables: &[Variable]) -> Result<Vec<Vec4>, NoMemory>
    ensures { IfOk result (λ marks. AreMarks [] variables.now marks.items) }
{
    let mut marks = Vec::new(alloc);
    for variable in variables {
        marks.push(Vec4::all_z(variable.length))?;
    }
    Ok(marks)
}

// The marks of a variable with one more. None where the bit is marked already, or there is none.
fn with_mark(letters: Vec4, bit: u64) -> Option<Vec4>
    ensures { (driven : List Place) (n size : ℕ) → bit < size → letters ≡ mark_of driven n size →
        result ≡ with_mark driven n size bit }
{
    if u64::from(letters.len()) <= bit {
        return None;
    }
    match letters.bit(bit as u32) {
        Bit4::Z => Some(letters.put(bit as u32, bit as u32, Vec4::all_x(1))),
        Bit4::X => None,
        Bit4::Zero => None,
        Bit4::One => None,
    }
}

// Marks a bit by x. False where it is marked already.
fn mark_bit(marks: &mut [Vec4], variable: usize, bit: u64) -> bool
    ensures { (driven : List Place) (variables : List design.Variable) →
        bit < size_in variables variable → AreMarks driven variables marks.old →
        Marks driven (places_from variable bit 1) variables result marks.new }
{
    let Some(letters) = marks.get(variable) else {
        return false;
    };
    match with_mark(*letters, bit) {
        None => false,
        Some(more) => {
            marks[variable] = more;
            true
        }
    }
}

// Marks bits that stand side by side. False where one is marked already.
fn mark_span(marks: &mut [Vec4], variable: usize, span: Span) -> bool
    ensures { (driven : List Place) (variables : List design.Variable) →
        ((k : ℕ) → k < span.count → span.low + k < size_in variables variable) → AreMarks driven variables marks.old →
        Marks driven (places_from variable span.low span.count) variables result marks.new }
{
    for k in 0..span.count {
        if !mark_bit(marks, variable, u64::from(span.low) + u64::from(k)) {
            return false;
        }
    }
    true
}

// Marks the bits of a target. False where one is marked already.
fn mark(target: &Target, environment: &Environment<'_>, marks: &mut [Vec4]) -> bool
    ensures { (driven : List Place) (variables : List design.Variable) →
        environment.now ≡ blank_environment variables → AreMarks driven variables marks.old →
        Marks driven (places_of environment.now target.now) variables result marks.new }
{
    mark_span(
        marks,
        variable_of(target) as usize,
        span_of(target, environment),
    )
}

// Marks the bits of each target. False where one is marked already.
fn mark_all(targets: &[Target], environment: &Environment<'_>, marks: &mut [Vec4]) -> bool
    ensures { (driven : List Place) (variables : List design.Variable) →
        environment.now ≡ blank_environment variables → AreMarks driven variables marks.old →
        Marks driven (places_of_all environment.now targets.now) variables result marks.new }
{
    for target in targets {
        if !mark(target, environment, marks) {
            return false;
        }
    }
    true
}

// Marks what an action drives. False where a bit is marked already.
fn mark_driven(action: &Action, environment: &Environment<'_>, marks: &mut [Vec4]) -> bool
    ensures { (driven : List Place) (variables : List design.Variable) →
        environment.now ≡ blank_environment variables → AreMarks driven variables marks.old →
        Marks driven (driven_by environment.now action.now) variables result marks.new }
{
    match action {
        Action::ContinuousAssign { targets, .. } => mark_all(
            targets.as_slice(),
            environment,
            marks,
        ),
        _ => true,
    }
}

// The first action that drives a bit again, told by its word.
fn first_again(
    actions: &[Action],
    words: &[Option<u32>],
    environment: &Environment<'_>,
    marks: &mut [Vec4],
) -> Option<ElabFault>
    ensures { (driven : List Place) (variables : List design.Variable) →
        environment.now ≡ blank_environment variables → AreMarks driven variables marks.old →
        Tells driven environment.now variables actions.now words.now result marks.new }
{
    for place in 0..actions.len() {
        if !mark_driven(&actions[place], environment, marks) {
            return Some(ElabFault {
                rule: Rule::Drivers,
                at: word_at(words, place),
            });
        }
    }
    None
}

// What a variable is before anything is written, by the marks of its bits.
fn start_of(variable: &Variable, marks: Vec4) -> Vec4
    ensures { (driven : List Place) (n : ℕ) → marks ≡ mark_of driven n variable.now.length →
        result ≡ spec.start_of driven n variable.now }
{
    if is_net(variable.kind) {
        marks
    } else {
        Vec4::all_x(variable.length)
    }
}

fn mark_at(marks: &[Vec4], place: usize) -> Vec4
    ensures { result ≡ unwrap_or (slice_get marks.now place) (filled 1 Bit4.X) }
{
    match marks.get(place) {
        None => Vec4::all_x(1),
        Some(letters) => *letters,
    }
}

// What each variable is before anything is written, by the marks of its bits.
fn starts_by(alloc: Global, variables: &[Variable], marks: &[Vec4]) -> Result<Vec<Vec4>, NoMemory>
    ensures { (driven : List Place) → AreMarks driven variables.now marks.now →
        IfOk result (λ starts. starts.items ≡ starts_from driven 0 variables.now) }
{
    let mut starts = Vec::new(alloc);
    for place in 0..variables.len() {
        starts.push(start_of(&variables[place], mark_at(marks, place)))?;
    }
    Ok(starts)
}

/// What each variable is before anything is written: z where it is a bit of a net that nothing drives, x elsewhere (4.2.1). E304 where
/// two actions drive one bit of a net.
pub fn starts_of(
    alloc: Global,
    variables: &[Variable],
    actions: &[Action],
    words: &[Option<u32>],
) -> Result<Vec<Vec4>, OrMemory<ElabFault>>
    ensures starts { IfOk result (λ starts. starts.items ≡
        starts_from (driven_by_all (blank_environment variables.now) actions.now) 0 variables.now) }
    ensures right { OnOk result
        (drivers_fault (blank_environment variables.now) [] actions.now words.now ≡ None) }
    ensures err { IfFault result (IsBroken
        (drivers_fault (blank_environment variables.now) [] actions.now words.now)) }
{
    let values = blanks(alloc, variables)?;
    let environment = Environment::at_zero(&values, variables);
    let mut marks = no_marks(alloc, variables)?;
    match first_again(actions, words, &environment, &mut marks) {
        None => Ok(starts_by(alloc, variables, &marks)?),
        Some(fault) => Err(OrMemory::Fault(fault)),
    }
}
