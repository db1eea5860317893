//! What one item adds to the names and to the problem, or its refusal.

ghost use Rattle.std.specs.Prelude.{◌≡◌, ◌≤◌, ◌<◌, ◌+◌, length, OnOk, None};
ghost use Rattle.fzn_item.specs.declared.item.Item.{Item};
ghost use Rattle.fzn_item.specs.Lent.{IsLent, IsOther, StandsFor};
ghost use Rattle.fzn_scope.specs.Checks.{Gives, Leaves};
ghost use Rattle.fzn_scope.specs.Lent.{ForArguments};
ghost use Rattle.fzn_scope.specs.Names.{declared_as};
ghost use Rattle.fzn_model.specs.Declarations.{is_late, declaration};
ghost use Rattle.fzn_model.specs.Items.{start, solve, predicate, after, finished};
ghost use Rattle.fzn_model.specs.Reading.{so_far, IsSound, HasRoom, parameter_by, variable_by, array_by, named_by, declare_by, constraint_by, IsSomeItem};

use crate::array::{add_members, check_element, elements, within};
use crate::building::{add_rule, add_variable};
use crate::declaration::{Declaration, is_boolean, right_side, source_of, value_of};
use crate::domains::Domains;
use crate::goal::aim_of;
use crate::output::{add_array_output, add_variable_output, check_shape};
use dcsp_problem::{ProblemBuilder, Term, Which};
use fzn_item::{Goal, Item, LentArguments, LentItem};
use fzn_scope::{ArgumentLists, Context, Declared, Names, bytes_at};
use fzn_token::{ModelError, Refusal};
use std::alloc::Global;

/// What the items so far gave.
#[derive(Drop)]
pub(crate) struct Resolver<'t> {
    alloc: Global,
    names: Names<'t>,
    /// What the arguments of a constraint are read into.
    lists: ArgumentLists,
    domains: Domains,
    builder: ProblemBuilder,
    /// Whether there was a constraint.
    constrained: bool,
    /// Whether there was a solve item.
    solved: bool,
}

/// A constraint with the name of its relation.
#[derive(Clone, Copy)]
struct Constraint<'i, 't> {
    at: u32,
    name_at: u32,
    name: &'t [u8],
    arguments: LentArguments<'i>,
}

impl<'t> Resolver<'t> {
    /// Before the first item.
    pub(crate) fn new(alloc: Global) -> Resolver<'t>
        ensures { so_far result ≡ start }
    {
        Resolver {
            alloc,
            names: Names::new(alloc),
            lists: ArgumentLists::new(alloc),
            domains: Domains::new(alloc),
            builder: ProblemBuilder::new(alloc),
            constrained: false,
            solved: false,
        }
    }

    /// Whether a declaration would stand too late.
    fn is_late(&self) -> bool
        ensures { result ≡ is_late (so_far self.now) }
    {
        self.solved || self.constrained
    }

    /// What is checked of every declaration, first.
    fn check_declaration(&self, at: u32, name_at: u32, name: &[u8]) -> Result<(), Refusal>
        ensures is { result ≡ declaration (so_far self.now) at name_at name.now }
        ensures new { OnOk result (declared_as self.now.names name.now ≡ None) }
    {
        if self.is_late() {
            return Err(Refusal::Misplaced { at });
        }
        if self.names.get(name).is_some() {
            return Err(Refusal::Duplicate { at: name_at });
        }
        Ok(())
    }

    /// A parameter.
    #[tactic(auto, unfolding(crate::specs::Declarations::parameter))]
    fn parameter(&mut self, text: &[u8], declaration: Declaration<'_, 't>) -> Result<(), ModelError>
        requires new { declared_as self.old.names declaration.name.now ≡ None }
        requires sound { IsSound (so_far self.old) }
        ensures is { Leaves (so_far self.new) result (parameter_by text.now (so_far self.old) declaration.entry) }
        ensures sound { OnOk result (IsSound (so_far self.new)) }
        ensures outputs { OnOk result (length self.new.builder.outputs ≤ length self.old.builder.outputs + 1) }
    {
        let expr = right_side(declaration.name_at, declaration.right)?;
        let context = Context {
            alloc: self.alloc,
            text,
            names: &self.names,
        };
        let value = value_of(context, declaration.at, declaration.base, expr)?;
        self.names.declare(declaration.name, value)?;
        Ok(())
    }

    /// A variable.
    #[tactic(auto, unfolding(crate::specs::Declarations::variable))]
    fn variable(&mut self, text: &[u8], declaration: Declaration<'_, 't>) -> Result<(), ModelError>
        requires new { declared_as self.old.names declaration.name.now ≡ None }
        requires sound { IsSound (so_far self.old) }
        requires room { HasRoom self.old.builder }
        ensures is { Leaves (so_far self.new) result (variable_by text.now (so_far self.old) declaration.entry) }
        ensures sound { OnOk result (IsSound (so_far self.new)) }
        ensures outputs { OnOk result (length self.new.builder.outputs ≤ length self.old.builder.outputs + 1) }
    {
        let domain = self.domains.domain_of(declaration.at, declaration.base)?;
        let boolean = is_boolean(declaration.base);
        let context = Context {
            alloc: self.alloc,
            text,
            names: &self.names,
        };
        let source = source_of(context, boolean, declaration.right)?;
        let number = add_variable(&mut self.builder, declaration.name_at, domain)?;
        declaration.add_source(&mut self.builder, number, source)?;
        add_variable_output(self.alloc, &mut self.builder, declaration, number)?;
        let term = Term::Var(number);
        self.names
            .declare(declaration.name, Declared::One { boolean, term })?;
        Ok(())
    }

    /// An array, of variables or of parameters.
    #[tactic(auto, unfolding(crate::specs::Declarations::array))]
    fn array(
        &mut self,
        text: &[u8],
        index: (i64, i64),
        declaration: Declaration<'_, 't>,
    ) -> Result<(), ModelError>
        requires new { declared_as self.old.names declaration.name.now ≡ None }
        requires sound { IsSound (so_far self.old) }
        requires room { HasRoom self.old.builder }
        ensures is { Leaves (so_far self.new) result (array_by text.now (so_far self.old) index declaration.entry) }
        ensures sound { OnOk result (IsSound (so_far self.new)) }
        ensures outputs { OnOk result (length self.new.builder.outputs ≤ length self.old.builder.outputs + 1) }
    {
        check_element(declaration.at, declaration.base)?;
        let right = right_side(declaration.name_at, declaration.right)?;
        let context = Context {
            alloc: self.alloc,
            text,
            names: &self.names,
        };
        let terms = elements(context, declaration, index, right)?;
        check_shape(declaration, terms.len())?;
        within(Which::Elements, terms.len(), declaration.name_at)?;
        add_members(&mut self.builder, declaration, terms.items())?;
        add_array_output(self.alloc, &mut self.builder, declaration, terms.items())?;
        let value = Declared::Many {
            boolean: is_boolean(declaration.base),
            variable: declaration.variable,
            terms,
        };
        self.names.declare(declaration.name, value)?;
        Ok(())
    }

    /// A constraint.
    #[tactic(auto, unfolding(crate::specs::Items::constraint))]
    fn constraint(&mut self, text: &[u8], constraint: Constraint<'_, 't>) -> Result<(), ModelError>
        requires lent { IsLent constraint.arguments }
        requires sound { IsSound (so_far self.old) }
        ensures is { ForArguments constraint.entry.arguments (so_far self.new) result
            (constraint_by text.now (so_far self.old) constraint.entry) }
        ensures sound { OnOk result (IsSound (so_far self.new)) }
        ensures outputs { OnOk result (length self.new.builder.outputs ≤ length self.old.builder.outputs + 1) }
    {
        let Constraint {
            at,
            name_at,
            name,
            arguments,
        } = constraint;
        if self.solved {
            return Err(ModelError::Refused(Refusal::Misplaced { at }));
        }
        let context = Context {
            alloc: self.alloc,
            text,
            names: &self.names,
        };
        let rule = context.constraint_rule(&mut self.lists, name_at, name, arguments)?;
        add_rule(&mut self.builder, name_at, rule)?;
        self.constrained = true;
        Ok(())
    }

    /// A solve item.
    #[tactic(auto, unfolding(crate::specs::Items::solve))]
    fn solve(&mut self, text: &[u8], at: u32, goal: &Goal) -> Result<(), ModelError>
        requires sound { IsSound (so_far self.old) }
        ensures is { Leaves (so_far self.new) result (solve text.now (so_far self.old) at goal.now) }
        ensures sound { OnOk result (IsSound (so_far self.new)) }
        ensures outputs { OnOk result (length self.new.builder.outputs ≤ length self.old.builder.outputs + 1) }
    {
        if self.solved {
            return Err(ModelError::Refused(Refusal::Misplaced { at }));
        }
        let context = Context {
            alloc: self.alloc,
            text,
            names: &self.names,
        };
        let aim = aim_of(context, goal)?;
        self.builder.set_aim(aim);
        self.solved = true;
        Ok(())
    }

    /// A predicate.
    #[tactic(auto, unfolding(crate::specs::Items::predicate))]
    fn predicate(&mut self, at: u32) -> Result<(), ModelError>
        requires sound { IsSound (so_far self.old) }
        ensures is { Leaves (so_far self.new) result (predicate (so_far self.old) at) }
        ensures sound { OnOk result (IsSound (so_far self.new)) }
        ensures outputs { OnOk result (length self.new.builder.outputs ≤ length self.old.builder.outputs + 1) }
    {
        if self.is_late() {
            return Err(ModelError::Refused(Refusal::Misplaced { at }));
        }
        Ok(())
    }

    /// A declaration of a new name.
    fn declare_new(
        &mut self,
        text: &[u8],
        declaration: Declaration<'_, 't>,
    ) -> Result<(), ModelError>
        requires new { declared_as self.old.names declaration.name.now ≡ None }
        requires sound { IsSound (so_far self.old) }
        requires room { HasRoom self.old.builder }
        ensures is { Leaves (so_far self.new) result (named_by text.now (so_far self.old) declaration.entry) }
        ensures sound { OnOk result (IsSound (so_far self.new)) }
        ensures outputs { OnOk result (length self.new.builder.outputs ≤ length self.old.builder.outputs + 1) }
    {
        match declaration.index {
            Some(index) => self.array(text, index, declaration),
            None => {
                if declaration.variable {
                    self.variable(text, declaration)
                } else {
                    self.parameter(text, declaration)
                }
            }
        }
    }

    /// A declaration.
    fn declare(&mut self, text: &[u8], declaration: Declaration<'_, 't>) -> Result<(), ModelError>
        requires sound { IsSound (so_far self.old) }
        requires room { HasRoom self.old.builder }
        ensures is { Leaves (so_far self.new) result (declare_by text.now (so_far self.old) declaration.entry) }
        ensures sound { OnOk result (IsSound (so_far self.new)) }
        ensures outputs { OnOk result (length self.new.builder.outputs ≤ length self.old.builder.outputs + 1) }
    {
        self.check_declaration(declaration.at, declaration.name_at, declaration.name)?;
        self.declare_new(text, declaration)
    }

    /// The next item.
    #[inline(always)]
    pub(crate) fn take(&mut self, text: &'t [u8], lent: &LentItem<'_>) -> Result<(), ModelError>
        requires stands { IsSomeItem lent.now }
        requires sound { IsSound (so_far self.old) }
        requires room { HasRoom self.old.builder }
        ensures is { (item : Item) → StandsFor lent.now item → Leaves (so_far self.new) result (after text.now (so_far self.old) item) }
        ensures sound { OnOk result (IsSound (so_far self.new)) }
        ensures outputs { OnOk result (length self.new.builder.outputs ≤ length self.old.builder.outputs + 1) }
    {
        match lent {
            LentItem::Constraint(constraint) => {
                let constraint = Constraint {
                    at: constraint.at,
                    name_at: constraint.name_at,
                    name: bytes_at(text, constraint.name_at, constraint.name_to),
                    arguments: constraint.arguments,
                };
                self.constraint(text, constraint)
            }
            LentItem::Other(item) => self.take_other(text, item),
        }
    }

    /// The next item, which is no constraint.
    fn take_other(&mut self, text: &'t [u8], item: &Item) -> Result<(), ModelError>
        requires other { IsOther item.now }
        requires sound { IsSound (so_far self.old) }
        requires room { HasRoom self.old.builder }
        ensures is { Leaves (so_far self.new) result (after text.now (so_far self.old) item.now) }
        ensures sound { OnOk result (IsSound (so_far self.new)) }
        ensures outputs { OnOk result (length self.new.builder.outputs ≤ length self.old.builder.outputs + 1) }
    {
        match item {
            Item::Predicate { at } => self.predicate(*at),
            Item::Declare {
                at,
                variable,
                index,
                base,
                name_at,
                name_to,
                marked,
                right,
            } => {
                let declaration = Declaration {
                    at: *at,
                    variable: *variable,
                    index: *index,
                    base,
                    name_at: *name_at,
                    name: bytes_at(text, *name_at, *name_to),
                    marked,
                    right,
                };
                self.declare(text, declaration)
            }
            Item::Constraint { .. } => unreachable!(),
            Item::Solve { at, goal } => self.solve(text, *at, goal),
        }
    }

    /// What was built, if there was a solve item.
    pub(crate) fn finish(self) -> Result<ProblemBuilder, ModelError>
        ensures { Gives result (finished (so_far self.entry)) }
    {
        if !self.solved {
            return Err(ModelError::Refused(Refusal::NoSolve));
        }
        Ok(self.builder)
    }
}
