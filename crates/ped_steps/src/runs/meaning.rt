//! The meaning of programs, and steps that keep it.

ghost use Rattle.ped_tree.specs.Tree.{ProgramTree};
ghost use Rattle.ped_steps.specs.Runs.Meaning.{Keeps};

/// A program keeps its own meaning, and what keeps the meaning of a program that keeps that of another keeps that one's.
pub fn keeping()
    ensures itself { (t : ProgramTree) → Keeps t t }
    ensures further { (t u v : ProgramTree) → Keeps t u → Keeps u v → Keeps t v }
{}
