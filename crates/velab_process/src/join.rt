// Port connections: each is a continuous assignment, into an instance or out of it (IEEE 1364-2005, 12.3.9.2).

ghost use Rattle.std.specs.Prelude.{◌≡◌, [], ◌∷◌, None, Some, Ok, option_map, List, map, IfOk, OnOk};
ghost use Rattle.vwords.specs.Words.{Text};
ghost use Rattle.vast.specs.NumberedTrees.{tree_of as text_tree};
ghost use Rattle.vast.specs.NumberedWords.{word_of};
ghost use Rattle.vexpr_parse.specs.Texts.{words_of};
ghost use Rattle.vmodules.specs.Inner.{port_form, value_tree};
ghost use Rattle.velab_expr.specs.Answers.{Gives, Makes};
ghost use Rattle.velab_process.specs.Processes.{with_begins_before};
ghost use Rattle.velab_process.specs.Connections as spec;
ghost use Rattle.velab_process.specs.Connections.{lower_input, lower_output, lower_connection};
ghost use Rattle.velab_process.specs.Inner.{lower_driven, joins_of, join_of};
ghost use Rattle.velab_expr.specs.Written.{target_of};
ghost use Rattle.vdesign.specs.declared.action.Target.{Target};

use crate::statement::{Table, put};
use crate::wait::{condition_terms, name_terms};
use basis::{NoMemory, OrMemory};
use std::alloc::Global;
use vast::expression::Expression as Value;
use vast::token::Token;
use vdesign::action::{Action, Places, Target, Targets};
use velab_expr::expression::{expression_of, expression_of_name};
use velab_expr::fault::{ElabFault, Rule};
use velab_expr::refusal::refusal;
use velab_expr::scope::{Scope, number_of};
use velab_expr::target::{connected_targets_of, is_drivable};
use vlex::Tokens;
use vmodules::connect::ConnectionMap;
use vmodules::letters::letters;
use vmodules::ports::PortForm;

// The ports of an instance: `outer` are the names where it stands, `inner` its own, and `whose` is the token of its name, by which a fault
// of a connection is told.
#[derive(Drop)]
struct Connector<'a> {
    alloc: Global,
    outer: &'a Scope<'a, 'a>,
    inner: &'a Scope<'a, 'a>,
    tokens: &'a Tokens<'a>,
    whose: Token,
}

impl<'a> Connector<'a> {
    // One process of one action, behind those that there are.
    fn put_process(
        &self,
        action: Action,
        table: &mut Table,
        into: &mut Vec<Places>,
    ) -> Result<(), OrMemory<ElabFault>>
        ensures { Makes result (record { table = table.new; begins = into.new.items })
            (with_begins_before into.old.items (Ok (spec.one_process table.old
            (Some (word_of (words_of self.now.tokens.now) self.now.whose)) action))) }
    {
        let mut begins = Vec::new(self.alloc);
        put(table, &mut begins, Some(self.whose.number), action)?;
        into.push(Places::new(begins))?;
        Ok(())
    }

    // A whole net, as a target.
    fn whole(&self, net: u32) -> Result<Targets, NoMemory>
        ensures { IfOk result (λ targets. targets ≡ Target.Whole net ∷ []) }
    {
        let mut list = Vec::new(self.alloc);
        list.push(Target::Whole(net))?;
        Ok(Targets::new(list))
    }

    // What drives an input from outside.
    fn input_action(&self, port: Token, value: &Value) -> Result<Action, OrMemory<ElabFault>>
        ensures { Gives result (lower_input self.now.outer.now self.now.inner.now
            (word_of (words_of self.now.tokens.now) port) (text_tree (words_of self.now.tokens.now) value.now)) }
    {
        let net = number_of(self.inner, self.tokens, port)?;
        let targets = self.whole(net)?;
        let terms = condition_terms(self.alloc, self.outer, self.tokens, value)?;
        let value = expression_of(self.alloc, self.outer, self.tokens, value)?;
        Ok(Action::ContinuousAssign {
            targets,
            value,
            terms,
        })
    }

    // What an output drives outside, where that can be driven.
    fn driven_action(&self, port: Token, value: &Value) -> Result<Action, OrMemory<ElabFault>>
        ensures { Gives result (lower_driven self.now.outer.now self.now.inner.now
            (word_of (words_of self.now.tokens.now) port) (text_tree (words_of self.now.tokens.now) value.now)) }
    {
        let targets = connected_targets_of(self.alloc, self.outer, self.tokens, value)?;
        let terms = name_terms(self.alloc, self.inner, self.tokens, port)?;
        let value = expression_of_name(self.alloc, self.inner, self.tokens, port)?;
        Ok(Action::ContinuousAssign {
            targets,
            value,
            terms,
        })
    }

    // The same; E305 where it can't be driven.
    fn output_action(&self, port: Token, value: &Value) -> Result<Action, OrMemory<ElabFault>>
        ensures { Gives result (lower_output (word_of (words_of self.now.tokens.now) self.now.whose)
            self.now.outer.now self.now.inner.now (word_of (words_of self.now.tokens.now) port)
            (target_of (text_tree (words_of self.now.tokens.now) value.now))) }
    {
        if !is_drivable(value) {
            return Err(refusal(Rule::Ports, Some(self.whose.number)));
        }
        self.driven_action(port, value)
    }

    // What drives a port that is connected to this, or is driven by it.
    fn connection_action(
        &self,
        port: &PortForm<'_>,
        value: &Value,
    ) -> Result<Action, OrMemory<ElabFault>>
        ensures { Gives result (lower_connection (word_of (words_of self.now.tokens.now) self.now.whose)
            self.now.outer.now self.now.inner.now (port_form (words_of self.now.tokens.now) port.now)
            (text_tree (words_of self.now.tokens.now) value.now)) }
    {
        if port.output {
            self.output_action(port.name, value)
        } else {
            self.input_action(port.name, value)
        }
    }

    // The process of a port that is connected to this.
    fn lower_connected(
        &self,
        port: &PortForm<'_>,
        value: &Value,
        table: &mut Table,
        into: &mut Vec<Places>,
    ) -> Result<(), OrMemory<ElabFault>>
        ensures { Makes result (record { table = table.new; begins = into.new.items })
            (with_begins_before into.old.items (spec.lower_join
            (word_of (words_of self.now.tokens.now) self.now.whose) self.now.outer.now
            self.now.inner.now table.old (port_form (words_of self.now.tokens.now) port.now)
            (Some (text_tree (words_of self.now.tokens.now) value.now)))) }
    {
        let action = self.connection_action(port, value)?;
        self.put_process(action, table, into)
    }

    // The process of a port, if it is connected.
    fn lower_join(
        &self,
        connections: &ConnectionMap<'_, '_>,
        port: &PortForm<'_>,
        table: &mut Table,
        into: &mut Vec<Places>,
    ) -> Result<(), OrMemory<ElabFault>>
        ensures { Makes result (record { table = table.new; begins = into.new.items })
            (with_begins_before into.old.items (join_of (words_of self.now.tokens.now) self.now.whose
            self.now.outer.now self.now.inner.now connections.now table.old port.now)) }
    {
        match connections.value(letters(self.tokens, port.name)) {
            None => Ok(()),
            Some(value) => self.lower_connected(port, value, table, into),
        }
    }

    // The processes of ports.
    fn lower_joins(
        &self,
        connections: &ConnectionMap<'_, '_>,
        ports: &[PortForm<'_>],
        table: &mut Table,
        into: &mut Vec<Places>,
    ) -> Result<(), OrMemory<ElabFault>>
        ensures { Makes result (record { table = table.new; begins = into.new.items })
            (with_begins_before into.old.items (joins_of (words_of self.now.tokens.now) self.now.whose
            self.now.outer.now self.now.inner.now connections.now table.old ports.now)) }
    {
        for port in ports {
            self.lower_join(connections, port, table, into)?;
        }
        Ok(())
    }
}

/// A process for each port that is connected, in the order of the ports, after the processes that there are. `outer` are the names
/// where the instance stands, `inner` its own, `connections` what its ports are connected to, `whose` the token of its name. E303 or E310
/// where a name that is connected is wrong, E305 where what an output is connected to can't be driven, E306 or E307 where what is constant in
/// a connection is wrong; E901.
pub fn put_joins(
    alloc: Global,
    outer: &Scope<'_, '_>,
    inner: &Scope<'_, '_>,
    tokens: &Tokens<'_>,
    whose: Token,
    connections: &ConnectionMap<'_, '_>,
    ports: &[PortForm<'_>],
    table: &mut Table,
    into: &mut Vec<Places>,
) -> Result<(), OrMemory<ElabFault>>
    ensures makes { Makes result (record { table = table.new; begins = into.new.items })
        (with_begins_before into.old.items (joins_of (words_of tokens.now) whose outer.now inner.now
        connections.now table.old ports.now)) }
{
    let connector = Connector {
        alloc,
        outer: &*outer,
        inner: &*inner,
        tokens: &*tokens,
        whose,
    };
    connector.lower_joins(connections, ports, table, into)
}
