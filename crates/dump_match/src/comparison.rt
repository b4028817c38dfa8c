// Which variables stand in the files and in a dump.

ghost use Rattle.std.specs.Prelude.{◌≡◌, ◌≤◌, [], true, ℕ, Bool, List, Some, length, IfOk, OnOk};
ghost use Rattle.std.specs.BTreeMap.{get_by};
ghost use Rattle.std.specs.Cmp.Lexicographic.{slice_cmp};
ghost use Rattle.std.specs.Ordering.{nat_cmp};
ghost use Rattle.vdesign.specs.Design as design;
ghost use Rattle.vcd_read.specs.declared.header.VcdVariable as header;
ghost use Rattle.vcd_slots.specs.Following.{IsFresh, IsSound};
ghost use Rattle.dump_match.specs.Scopes.{compared_name, is_wrapped};
ghost use Rattle.dump_match.specs.Named.{AreAllCompared, AreMet, AreNamedSo, FindsLast, IfSame, IsCompared, IsDeclared, IsLike};
ghost use Rattle.dump_match.specs.Named.{KeepsCompared, KeepsNamed, MeetsAt, TakesMore};

use crate::scopes::{behind_outermost, is_wrapped, scope_round};
use basis::NoMemory;
use std::alloc::Global;
use std::collections::BTreeMap;
use vcd_read::{VcdVariable, is_same};
use vcd_slots::Columns;
use vdesign::design::{Design, Variable};

/// A variable that stands in both: its column of the dump, and its number in the design.
pub struct Pair {
    pub column: usize,
    pub variable: usize,
}

impl Drop for Pair {
    fn drop(self) {
        let Pair {
            column: _,
            variable: _,
        } = self;
    }
}

/// What is compared: the variables that stand in both with one name and as many bits; and the names of the others. A name of `repeated` is of
/// a further variable of the dump that has the name of one that is compared. Where all names of the dump have a scope round the top module,
/// that one was left out.
pub struct Comparison {
    pub pairs: Vec<Pair>,
    pub only_in_dump: Vec<Vec<u8>>,
    pub only_in_files: Vec<Vec<u8>>,
    pub of_other_width: Vec<Vec<u8>>,
    pub repeated: Vec<Vec<u8>>,
    pub left_out: Option<Vec<u8>>,
}

impl Drop for Comparison {
    fn drop(self) {
        let Comparison {
            pairs: _,
            only_in_dump: _,
            only_in_files: _,
            of_other_width: _,
            repeated: _,
            left_out: _,
        } = self;
    }
}

// What a variable of the dump is to those of the files.
#[derive(Clone, Copy)]
enum Likeness {
    Same(usize),
    OtherWidth(usize),
    Unknown,
}

// What was met of a variable of the files: none of the dump, one of another width, or one with which it is compared.
#[derive(Clone, Copy, PartialEq, Eq)]
enum Meeting {
    Unmet,
    OtherWidth,
    Compared,
}

// The numbers of variables by their names.
fn numbers_of<'v>(
    alloc: Global,
    variables: &'v [Variable],
) -> Result<BTreeMap<&'v [u8], usize>, NoMemory>
    ensures { IfOk result (λ numbers. FindsLast variables.now (λ name. get_by (λ k. slice_cmp nat_cmp name k.now) numbers)) }
{
    let mut numbers: BTreeMap<&'v [u8], usize> = BTreeMap::new(alloc);
    for (number, variable) in variables.iter().enumerate() {
        numbers.insert(&variable.name, number)?;
    }
    Ok(numbers)
}

// The name by which a variable of the dump is compared.
fn compared_name(wrapped: bool, name: &[u8]) -> &[u8]
    ensures { result.now ≡ compared_name wrapped name.now }
{
    if wrapped {
        behind_outermost(name)
    } else {
        name
    }
}

// Whether the variable of the files is that of the dump: it has its name and as many bits.
fn likeness_of(
    wrapped: bool,
    variables: &[Variable],
    number: Option<usize>,
    told: &VcdVariable,
) -> Likeness
    ensures like { IfSame result (IsLike wrapped variables.now told.now) }
    ensures same { (n : ℕ) → number ≡ Some n → IsLike wrapped variables.now told.now n → result ≡ Likeness.Same n }
{
    let Some(number) = number else {
        return Likeness::Unknown;
    };
    let Some(variable) = variables.get(number) else {
        return Likeness::Unknown;
    };
    if !is_same(compared_name(wrapped, &told.name), &variable.name) {
        return Likeness::Unknown;
    }
    if u64::from(variable.length) != told.width {
        return Likeness::OtherWidth(number);
    }
    Likeness::Same(number)
}

// Puts a copy of the name.
fn push_name(alloc: Global, names: &mut Vec<Vec<u8>>, name: &[u8]) -> Result<(), NoMemory> {
    names.push(Vec::from_slice(alloc, name)?)?;
    Ok(())
}

// Puts the names of the variables of which this was met.
fn put_met(
    alloc: Global,
    names: &mut Vec<Vec<u8>>,
    variables: &[Variable],
    met: &[Meeting],
    meeting: Meeting,
) -> Result<(), NoMemory> {
    for (number, variable) in variables.iter().enumerate() {
        if met.get(number) == Some(&meeting) {
            push_name(alloc, names, &variable.name)?;
        }
    }
    Ok(())
}

// The next variable of the dump that a variable of the files meets.
fn meet(met: &mut [Meeting], number: usize, meeting: Meeting) -> Meeting
    ensures { MeetsAt met.old met.new number meeting result }
{
    if number >= met.len() {
        return Meeting::Compared;
    }
    let before = met[number];
    match before {
        Meeting::Compared => Meeting::Compared,
        _ => {
            met[number] = meeting;
            before
        }
    }
}

impl Comparison {
    // Nothing is compared yet.
    fn none(alloc: Global) -> Comparison
        ensures { result.pairs.items ≡ [] }
    {
        Comparison {
            pairs: Vec::new(alloc),
            only_in_dump: Vec::new(alloc),
            only_in_files: Vec::new(alloc),
            of_other_width: Vec::new(alloc),
            repeated: Vec::new(alloc),
            left_out: None,
        }
    }

    // Follows the variable of the dump, if it can be followed.
    fn follow(
        &mut self,
        alloc: Global,
        columns: &mut Columns,
        told: &VcdVariable,
        variable: usize,
    ) -> Result<(), NoMemory>
        requires { IsSound columns.old }
        ensures sound { OnOk result (IsSound columns.new) }
        ensures fresh { OnOk result (IsFresh columns.old → IsFresh columns.new) }
        ensures named { (wrapped : Bool) (variables : List design.Variable) (declared : List header.VcdVariable) →
            IsLike wrapped variables told.now variable → IsDeclared declared told.now →
            OnOk result (KeepsNamed wrapped variables declared columns.old columns.new self.old.pairs.items self.new.pairs.items) }
        ensures keeps { OnOk result (KeepsCompared self.old.pairs.items self.new.pairs.items) }
        ensures compared { OnOk result (1 ≤ told.now.width → told.now.width ≤ 64 → IsCompared self.new.pairs.items variable) }
    {
        match columns.watch(alloc, told)? {
            None => push_name(alloc, &mut self.only_in_dump, &told.name),
            Some(column) => {
                self.pairs.push(Pair { column, variable })?;
                Ok(())
            }
        }
    }

    // The next variable of the dump: it is followed where it is one of the files' that no other was before.
    fn take(
        &mut self,
        alloc: Global,
        columns: &mut Columns,
        told: &VcdVariable,
        likeness: Likeness,
        met: &mut [Meeting],
    ) -> Result<(), NoMemory>
        requires { IsSound columns.old }
        ensures sound { OnOk result (IsSound columns.new) }
        ensures fresh { OnOk result (IsFresh columns.old → IsFresh columns.new) }
        ensures named { (wrapped : Bool) (variables : List design.Variable) (declared : List header.VcdVariable) →
            IfSame likeness (IsLike wrapped variables told.now) → IsDeclared declared told.now →
            OnOk result (KeepsNamed wrapped variables declared columns.old columns.new self.old.pairs.items self.new.pairs.items) }
        ensures len { length met.new ≡ length met.old }
        ensures takes { (wrapped : Bool) (variables : List design.Variable) →
            IfSame likeness (IsLike wrapped variables told.now) → AreMet wrapped variables met.old self.old.pairs.items →
            OnOk result (TakesMore wrapped variables told.now likeness met.old met.new self.old.pairs.items self.new.pairs.items) }
    {
        match likeness {
            Likeness::Unknown => push_name(alloc, &mut self.only_in_dump, &told.name),
            Likeness::OtherWidth(number) => match meet(met, number, Meeting::OtherWidth) {
                Meeting::Compared => push_name(alloc, &mut self.repeated, &told.name),
                Meeting::OtherWidth => Ok(()),
                Meeting::Unmet => Ok(()),
            },
            Likeness::Same(number) => match meet(met, number, Meeting::Compared) {
                Meeting::Compared => push_name(alloc, &mut self.repeated, &told.name),
                Meeting::OtherWidth => self.follow(alloc, columns, told, number),
                Meeting::Unmet => self.follow(alloc, columns, told, number),
            },
        }
    }

    // What is compared of these variables of the files and of a dump, which are followed, where scopes round the top are left out or not.
    fn among(
        alloc: Global,
        wrapped: bool,
        variables: &[Variable],
        declared: &[VcdVariable],
        columns: &mut Columns,
    ) -> Result<Comparison, NoMemory>
        requires sound { IsSound columns.old }
        requires fresh { IsFresh columns.old }
        ensures sound { IfOk result (λ _. IsSound columns.new) }
        ensures fresh { IfOk result (λ _. IsFresh columns.new) }
        ensures named { IfOk result (λ comparison.
            AreNamedSo wrapped variables.now declared.now columns.new.watched.items comparison.pairs.items) }
        ensures all { IfOk result (λ comparison. AreAllCompared wrapped variables.now declared.now comparison.pairs.items) }
    {
        let numbers = numbers_of(alloc, variables)?;
        let mut met = Vec::new(alloc);
        met.resize(variables.len(), Meeting::Unmet)?;
        let mut comparison = Comparison::none(alloc);
        for told in declared {
            let number = numbers.get(&compared_name(wrapped, &told.name)).copied();
            let likeness = likeness_of(wrapped, variables, number, told);
            comparison.take(alloc, columns, told, likeness, &mut met)?;
        }
        put_met(
            alloc,
            &mut comparison.only_in_files,
            variables,
            &met,
            Meeting::Unmet,
        )?;
        put_met(
            alloc,
            &mut comparison.of_other_width,
            variables,
            &met,
            Meeting::OtherWidth,
        )?;
        Ok(comparison)
    }

    /// What is compared of the variables of a design and of a dump, which are followed.
    pub(crate) fn new(
        alloc: Global,
        design: &Design,
        declared: &[VcdVariable],
        columns: &mut Columns,
    ) -> Result<Comparison, NoMemory>
        requires sound { IsSound columns.old }
        requires fresh { IsFresh columns.old }
        ensures sound { IfOk result (λ _. IsSound columns.new) }
        ensures fresh { IfOk result (λ _. IsFresh columns.new) }
        ensures named { IfOk result (λ comparison. AreNamedSo (is_wrapped design.now.top declared.now) design.now.variables
            declared.now columns.new.watched.items comparison.pairs.items) }
        ensures all { IfOk result (λ comparison. AreAllCompared (is_wrapped design.now.top declared.now) design.now.variables declared.now
            comparison.pairs.items) }
    {
        let wrapped = is_wrapped(&design.top, declared);
        let mut comparison = Comparison::among(
            alloc,
            wrapped,
            &design.variables,
            declared,
            columns,
        )?;
        comparison.left_out = scope_round(alloc, wrapped, &design.top, declared)?;
        Ok(comparison)
    }
}
