// Whether the head of a report is true.

ghost use Rattle.std.specs.Prelude.{◌≡◌, map, Decides};
ghost use Rattle.vreport.specs.Truth.{IsTrueHead, column_of};

use report_text::{Column, Report};
use vdesign::design::Variable;
use vmachine::Machine;

// Whether it is the name and the width of the variable.
fn is_column_of(column: &Column, variable: &Variable) -> bool
    ensures { Decides result (column.now ≡ column_of variable.now) }
{
    if column.width != variable.length {
        return false;
    }
    column.name == variable.name
}

// Whether they are the names and the widths of the variables, one for each.
fn are_columns_of(columns: &[Column], variables: &[Variable]) -> bool
    ensures { Decides result (columns.now ≡ map column_of variables.now) }
{
    if columns.len() != variables.len() {
        return false;
    }
    for place in 0..columns.len() {
        if !is_column_of(&columns[place], &variables[place]) {
            return false;
        }
    }
    true
}

/// Whether the head of the report is that of the machine: its top, its time limit, its grain, which departures there are, what is
/// looked at, and its variables.
pub fn is_true_head(machine: &Machine, report: &Report) -> bool
    ensures { Decides result (IsTrueHead machine.now report.now) }
{
    let design = machine.design();
    if report.top != design.top {
        return false;
    }
    if report.until != machine.until() {
        return false;
    }
    if report.grain != machine.grain() {
        return false;
    }
    if report.departures != machine.departures() {
        return false;
    }
    if report.looked != machine.looked() {
        return false;
    }
    are_columns_of(&report.variables, &design.variables)
}
