//! What a part of a program does to many scalars.

ghost use Rattle.std.specs.Prelude.{◌≡◌, length};

use crate::row_steps::copied;
use crate::row_summaries::RowSummary;
use ped_base::NoMemory;
use ped_bits::Row;
use std::alloc::Global;

/// What a part of a program does to many scalars.
#[derive(Drop)]
pub(crate) struct Part {
    /// What its paths do to them.
    pub(crate) summaries: RowSummary,
    /// Those that it reads outside the bodies of all loops of them in it.
    pub(crate) loose: Row,
    /// The variables of its loops.
    pub(crate) indices: Row,
    ghost loose_wide: { length loose ≡ summaries.width },
    ghost indices_wide: { length indices ≡ summaries.width },
}

impl Part {
    ghost use Rattle.std.specs.Prelude.{◌≡◌, ℕ, List, [], ◌++◌, Option, None, length, IfOk, OnOk};
    ghost use Rattle.ped_flow.specs.Summaries as Spec;
    ghost use Rattle.ped_flow.specs.RowPlaces.{IsRowOf};
    ghost use Rattle.ped_flow.specs.Parts.{IsPart, AreEvents};
    ghost use Rattle.ped_flow.specs.declared.summaries.Summary.{Summary};

    /// Nothing.
    pub(crate) fn nothing(alloc: Global, width: usize) -> Result<Part, NoMemory>
        ensures { IfOk result (λ p. (names : List (List ℕ)) → length names ≡ width → IsPart names p (λ x. Spec.passing) (λ x. None) []) }
    {
        let loose = Row::new(alloc, width)?;
        let indices = Row::new(alloc, width)?;
        let summaries = RowSummary::passing(alloc, width)?;
        Ok(Part {
            summaries,
            loose,
            indices,
        })
    }

    /// A STOP.
    pub(crate) fn stopped(alloc: Global, width: usize) -> Result<Part, NoMemory>
        ensures { IfOk result (λ p. (names : List (List ℕ)) → length names ≡ width → IsPart names p (λ x. Spec.stopped) (λ x. None) []) }
    {
        let loose = Row::new(alloc, width)?;
        let indices = Row::new(alloc, width)?;
        let summaries = RowSummary::stopped(alloc, width)?;
        Ok(Part {
            summaries,
            loose,
            indices,
        })
    }

    /// Reads of some scalars, and then assignments of some.
    pub(crate) fn of_events(alloc: Global, reads: Row, assigned: Row) -> Result<Part, NoMemory>
        requires { length reads ≡ length assigned }
        ensures { IfOk result (λ p. (names : List (List ℕ)) (xs ys : List (List ℕ)) (sum : List ℕ → Summary) (outside : List ℕ → Option ℕ) → length names ≡ length reads → IsRowOf names reads xs → IsRowOf names assigned ys → AreEvents xs ys sum outside → IsPart names p sum outside []) }
    {
        let loose = copied(alloc, &reads)?;
        let indices = Row::new(alloc, reads.width())?;
        let summaries = RowSummary::of_events(alloc, reads, assigned)?;
        Ok(Part {
            summaries,
            loose,
            indices,
        })
    }

    /// This part and then another.
    pub(crate) fn then(&mut self, alloc: Global, next: &Part) -> Result<(), NoMemory>
        requires { self.old.summaries.width ≡ next.now.summaries.width }
        ensures width { self.new.summaries.width ≡ self.old.summaries.width }
        ensures part { OnOk result ((names : List (List ℕ)) (f g : List ℕ → Summary) (o q : List ℕ → Option ℕ) (u v : List (List ℕ)) → IsPart names self.old f o u → IsPart names next.now g q v → IsPart names self.new (λ x. Spec.summary_in_turn (f x) (g x)) (λ x. Spec.least_of (o x) (q x)) (u ++ v)) }
    {
        self.summaries.then(alloc, &next.summaries)?;
        next.loose.or_into(&mut self.loose);
        next.indices.or_into(&mut self.indices);
        Ok(())
    }

    /// This part and then another, where there is memory for both.
    pub(crate) fn followed(self, alloc: Global, next: &Part) -> Result<Part, NoMemory>
        requires { self.summaries.width ≡ next.now.summaries.width }
        ensures { IfOk result (λ p. (names : List (List ℕ)) (f g : List ℕ → Summary) (o q : List ℕ → Option ℕ) (u v : List (List ℕ)) → IsPart names self f o u → IsPart names next.now g q v → IsPart names p (λ x. Spec.summary_in_turn (f x) (g x)) (λ x. Spec.least_of (o x) (q x)) (u ++ v)) }
    {
        let mut both = self;
        match both.then(alloc, next) {
            Ok(()) => {
                return Ok(both);
            }
            Err(error) => {
                drop(both);
                return Err(error);
            }
        }
    }

    /// Either this part or another, where there is memory for both.
    pub(crate) fn either(self, alloc: Global, other: &Part) -> Result<Part, NoMemory>
        requires { self.summaries.width ≡ other.now.summaries.width }
        ensures width { IfOk result (λ p. p.summaries.width ≡ self.summaries.width) }
        ensures part { IfOk result (λ p. (names : List (List ℕ)) (f g : List ℕ → Summary) (o q : List ℕ → Option ℕ) (u v : List (List ℕ)) → IsPart names self f o u → IsPart names other.now g q v → IsPart names p (λ x. Spec.summary_either (f x) (g x)) (λ x. Spec.least_of (o x) (q x)) (u ++ v)) }
    {
        let mut both = self;
        match both.or(alloc, other) {
            Ok(()) => {
                return Ok(both);
            }
            Err(error) => {
                drop(both);
                return Err(error);
            }
        }
    }

    /// Either this part or another.
    pub(crate) fn or(&mut self, alloc: Global, other: &Part) -> Result<(), NoMemory>
        requires { self.old.summaries.width ≡ other.now.summaries.width }
        ensures width { self.new.summaries.width ≡ self.old.summaries.width }
        ensures part { OnOk result ((names : List (List ℕ)) (f g : List ℕ → Summary) (o q : List ℕ → Option ℕ) (u v : List (List ℕ)) → IsPart names self.old f o u → IsPart names other.now g q v → IsPart names self.new (λ x. Spec.summary_either (f x) (g x)) (λ x. Spec.least_of (o x) (q x)) (u ++ v)) }
    {
        self.summaries.or(alloc, &other.summaries)?;
        other.loose.or_into(&mut self.loose);
        other.indices.or_into(&mut self.indices);
        Ok(())
    }
}
