//! The sweeps of a serial run, as functions that do nothing.

ghost use Rattle.laws_one_report.specs.Sweeps.{BeginningBeginsSweep, StepsAreSweeps, TicksBeginSweep};

/// The steps between two moves of the clock part into sweeps. In each the numbers ascend, and none is past those that
/// were there when it began; so each makes one step in it at most, and one that makes none rested when it was its turn
/// (Z.101: agent instance set; own).
pub fn steps_are_sweeps()
    ensures { StepsAreSweeps }
{}

/// A sweep begins as the run begins, and each time that the clock has moved.
pub fn sweeps_begin()
    ensures beginning { BeginningBeginsSweep }
    ensures ticks { TicksBeginSweep }
{}
