// Where statements stand, and what is done there by whom it concerns: prints, and what makes turns.
// The statements are run alike in each; a context says what a print and a forall do, and is the crew that is asked there. What it has done is
// told by its deeds (`Walks` of dpl_coming), and what is known of these by `known`.

ghost use Rattle.std.specs.Prelude.{◌≡◌, ℕ};
ghost use Rattle.dpl_syntax.specs.declared.place.Place.{Place as PlaceValue};
ghost use Rattle.dpl_history.specs.declared.cell.CellOp.{CellOp as CellOpValue};
ghost use Rattle.dpl_language.specs.Tree.{One};
ghost use Rattle.dpl_language.specs.Statements.{exec};
ghost use Rattle.dpl_standing.specs.Standing.{Standing, InTurn};
ghost use Rattle.dpl_nodes.specs.Typed.{range_item, domain_view};
ghost use Rattle.dpl_nodes.specs.Steps.{variable_in, names_view, written_as};
ghost use Rattle.dpl_coming.specs.Noting.{Note, noting};
ghost use Rattle.dpl_coming.specs.Walks.{Site, Known, Walks};
ghost use Rattle.dpl_values.specs.Reductions.{MayRefuseReduction};
ghost use Rattle.dpl_readings.specs.Readings.{outside, forall_of, steps_in};
ghost use Rattle.dpl_values.specs.Arguments.{EachInArguments};
ghost use Rattle.dpl_steps.specs.Refusals.{MayRefuseForall, MayRefuseForallLine};

use dpl_elements::Crew;
use dpl_frame::Frame;
use dpl_loop::RunStop;
use dpl_nodes::{Argument, Changed, DomainExpr, Names, RangeExpr, Spot, Step};

/// Where statements stand: outside of all foralls and tasks, or in a turn or a task; and the gate that reductions there ask.
pub trait Context: Crew {
    /// Where what is printed goes.
    type Out;

    // Where they stand, and who answers operations on cells there.
    ghost standing: { Standing };

    ghost site: { Site };

    // What is known of what was done.
    ghost known: { Self → Self.Out → Known };

    // What is noted of a forall that is entered.
    ghost note: { Self → Note };

    // What is known of an operation at which a task waits.
    ghost waiting: { Self.Out → PlaceValue → ℕ → CellOpValue → Type 0 };

    // What whoever runs statements here may rely on, and keeps.
    ghost held: { Self → Self.Out → Type 0 };

    /// Prints the texts of all arguments, and then the line's end if one is asked for.
    ///
    /// # Errors
    /// The fault of an argument, which prints nothing; out of memory for what is printed; or a gate refused an entry of a reduction
    /// in an argument.
    fn write(
        &self,
        ends_line: bool,
        arguments: &[Argument<'_>],
        frame: &Frame<Self::Kept>,
        out: &mut Self::Out,
    ) -> Result<(), RunStop>
        requires ready { Self.is_ready self.now }
        requires held { held self.now out.old }
        ensures ends { Walks (MayRefuseReduction (Self.may_refuse self.now) frame.now (EachInArguments arguments.now)) site (waiting out.new) result
            (known self.now out.old) (known self.now out.new) frame.now.memory frame.now.memory
            (exec frame.now.limits (noting (note self.now)) (outside standing (written_as ends_line arguments.now))) }
        ensures held { held self.now out.new };

    /// A forall over a range, with what its turns change.
    ///
    /// # Errors
    /// The fault of what it runs over, or of the first turn that has one; out of memory; a worker was not started; or a gate refused the
    /// entry of a turn, or of a reduction in what it runs over.
    fn forall_line<'t>(
        &self,
        at: &Spot,
        slot: usize,
        over: &RangeExpr<'t>,
        changed: &Changed<'t>,
        body: &[Step<'t>],
        frame: &mut Frame<Self::Kept>,
        out: &mut Self::Out,
    ) -> Result<(), RunStop>
        requires ready { Self.is_ready self.now }
        requires held { held self.now out.old }
        ensures ends { Walks (MayRefuseForallLine (Self.may_refuse self.now) frame.old at.now over.now (steps_in InTurn body.now)) site (waiting out.new) result
            (known self.now out.old) (known self.now out.new) frame.old.memory frame.new.memory
            (exec frame.old.limits (noting (note self.now))
            (outside standing (forall_of at.now (variable_in slot) (range_item over.now) changed.now.reduced.now (steps_in InTurn body.now)))) }
        ensures limits { frame.new.limits ≡ frame.old.limits }
        ensures held { held self.now out.new };

    /// The same over a domain.
    ///
    /// # Errors
    /// As for a range.
    fn forall<'t>(
        &self,
        at: &Spot,
        names: &Names<'t>,
        over: &DomainExpr<'t>,
        changed: &Changed<'t>,
        body: &[Step<'t>],
        frame: &mut Frame<Self::Kept>,
        out: &mut Self::Out,
    ) -> Result<(), RunStop>
        requires ready { Self.is_ready self.now }
        requires held { held self.now out.old }
        ensures ends { Walks (MayRefuseForall (Self.may_refuse self.now) frame.old at.now over.now (steps_in InTurn body.now)) site (waiting out.new) result
            (known self.now out.old) (known self.now out.new) frame.old.memory frame.new.memory
            (exec frame.old.limits (noting (note self.now))
            (outside standing (forall_of at.now (names_view names.now) (One (domain_view over.now)) changed.now.reduced.now (steps_in InTurn body.now)))) }
        ensures limits { frame.new.limits ≡ frame.old.limits }
        ensures held { held self.now out.new };
}
