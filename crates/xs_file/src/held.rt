//! What is read of an instance so far.

ghost use Rattle.std.specs.Prelude.{◌≡◌, ◌≤◌, ◌<◌, nat_lt, length, IfOk, OnOk, OnErr};
ghost use Rattle.xs_file.specs.Sections.{begun, instance_of, left_of, with_constraint};
ghost use Rattle.xs_model.specs.Spans.{spans_of};
ghost use Rattle.xs_model.specs.Accepted.{IsAccepted, IsMeasured, IsSoundConstraint, items_of, most_constraints};
ghost use Rattle.xs_file.specs.Held.{IsWhole};

use std::alloc::Global;
use std::marker::Model;
use xf_num::{MAX_CONSTRAINTS, MAX_ITEMS, NoMemory, Row, Span, Spans};
use xs_forms::count_items;
use xs_model::{Constraint, Constraints, Decls, Instance, Objective, spans};

/// The declarations, the constraints and the objective that are read so far, within the limits on what is read.
#[derive(Drop)]
pub struct Held {
    decls: Decls,
    cells: u64,
    values: u64,
    spans: Spans,
    constraints: Constraints,
    objective: Option<Objective>,
    items: u64,
}

impl Model for Held {
    ghost use Rattle.xs_file.specs.Sections.{Progress};
    ghost use Rattle.xs_file.specs.Held.{IsHeld, progress_of};
    ghost use Rattle.xs_model.specs.contracts.expr.Expr as e;
    ghost use Rattle.std.specs.Coded.{codes};

    ghost Value = { Progress };

    ghost coded = { Prim.hlevel (codes, e.the_row.coded) };

    ghost view = { λ h. progress_of (record { decls = h.decls; cells = h.cells; values = h.values }) h.constraints h.objective };

    ghost invariant = { λ h. IsHeld (record { decls = h.decls; cells = h.cells; values = h.values }) h.spans h.constraints h.objective h.items };
}

impl Held {
    /// The declarations, and no constraint and no objective yet.
    pub fn new(alloc: Global, decls: Decls, cells: u64, values: u64) -> Result<Held, NoMemory>
        requires { IsWhole (record { decls = decls; cells = cells; values = values }) }
        ensures { IfOk result (λ h. h ≡ begun (record { decls = decls; cells = cells; values = values })) }
    {
        let spans = spans(alloc, decls.as_slice())?;
        Ok(Held {
            decls,
            cells,
            values,
            spans,
            constraints: Row::new(alloc),
            objective: None,
            items: values,
        })
    }

    /// The bounds of the variables.
    pub fn spans(&self) -> &[Span]
        ensures { result.now ≡ spans_of self.now.declared.decls }
    {
        self.spans.as_slice()
    }

    /// How many items may still come.
    pub fn left(&self) -> u64
        ensures { result ≡ left_of self.now }
    {
        MAX_ITEMS - self.items
    }

    /// Whether one more constraint is within the limit.
    pub fn has_room(&self) -> bool
        ensures { result ≡ nat_lt (length self.now.constraints) most_constraints }
    {
        self.constraints.len() < MAX_CONSTRAINTS
    }

    /// Appends a constraint, or changes nothing.
    pub fn add(&mut self, constraint: Constraint) -> Result<(), NoMemory>
        requires sound { IsSoundConstraint (spans_of self.old.declared.decls) constraint }
        requires measured { IsMeasured (spans_of self.old.declared.decls) constraint }
        requires items { items_of constraint ≤ left_of self.old }
        requires few { length self.old.constraints < most_constraints }
        ensures ok { OnOk result (self.new ≡ with_constraint self.old constraint) }
        ensures err { OnErr result (self.new ≡ self.old) }
    {
        let items = count_items(&constraint);
        self.constraints.push(constraint)?;
        self.items += items;
        Ok(())
    }

    /// The instance of all that is read.
    pub fn into_instance(self) -> Instance
        ensures value { result ≡ instance_of self }
        ensures accepted { IsAccepted result }
    {
        let decls = self.decls;
        let constraints = self.constraints;
        let objective = self.objective;
        Instance {
            decls,
            constraints,
            objective,
        }
    }
}
