//! What holds of the definitions, as functions that do nothing.

ghost use Rattle.sdl_system.specs.BehaviourLaws.{ReactsAsMeant};
ghost use Rattle.sdl_system.specs.BodyLaws.{EndsFirst, EndsSecond, FollowedByTurns, GrowsByTurns, HasFollowed, HasGrows, HasPartsGrows, LabelFollowed};
ghost use Rattle.sdl_system.specs.OperationLaws.{DividesAll, EqualIsSame, KeepsSort, ModuloOfAll, RefusesNegatives, TakesSort};
ghost use Rattle.sdl_system.specs.RouteLaws.{GoesAlongPaths};
ghost use Rattle.sdl_system.specs.Soundness.{StatesHaveTables};
ghost use Rattle.sdl_system.specs.Walk.{Decides, OpensPlaces, StandsAtNodes};

/// Of three bodies behind one another it is the same which two are put together first.
pub fn followed_by_turns()
    ensures { FollowedByTurns }
{}

/// A body whose paths all end does so whatever stands behind it.
pub fn ends_first()
    ensures { EndsFirst }
{}

/// All paths end where those of what stands behind do.
pub fn ends_second()
    ensures { EndsSecond }
{}

/// If one body follows another, it follows the rest of that one after each label too.
pub fn label_followed()
    ensures { LabelFollowed }
{}

/// A table has two bodies, one behind the other, where the second stands at the place to which the first leads.
pub fn has_followed()
    ensures { HasFollowed }
{}

/// A table that has a body still has it after it has grown.
pub fn has_grows()
    ensures { HasGrows }
{}

/// The same of the parts of a decision.
pub fn has_parts_grows()
    ensures { HasPartsGrows }
{}

/// A table that grows twice has grown.
pub fn grows_by_turns()
    ensures { GrowsByTurns }
{}

/// Where statements stand to the end of a transition, the node there is where they begin.
pub fn opens_places()
    ensures { OpensPlaces }
{}

/// The place of statements that end is that of a node: no path runs off the end.
pub fn stands_at_nodes()
    ensures { StandsAtNodes }
{}

/// The way that a value takes leads to the part that it chooses, and then to what stands behind the decision.
pub fn decides()
    ensures { Decides }
{}

/// Each state of a process reacts to a signal as the behaviour says.
pub fn reacts_as_meant()
    ensures { ReactsAsMeant }
{}

/// Two values are equal where they are the same but for the sort of a number.
pub fn equal_is_same()
    ensures { EqualIsSame }
{}

/// `/` gives a quotient that is truncated towards zero, and `rem` a remainder with the dividend's sign.
pub fn divides_all()
    ensures { DividesAll }
{}

/// `mod` gives the number from 0 to the divisor's amount less one that differs from the dividend by a multiple of the
/// divisor.
pub fn modulo_of_all()
    ensures { ModuloOfAll }
{}

/// A value that is taken to the sort of a place has that sort.
pub fn takes_sort()
    ensures { TakesSort }
{}

/// A value that has the sort of the place stays as it is.
pub fn keeps_sort()
    ensures { KeepsSort }
{}

/// Only a negative number at a Natural place has no value there.
pub fn refuses_negatives()
    ensures { RefusesNegatives }
{}

/// In a sound system each state of a process has its table.
pub fn states_have_tables()
    ensures { StatesHaveTables }
{}

/// Without a destination a signal goes to the first process that a path reaches and that has a living instance; with
/// none to the environment, if a path reaches it; else to nobody.
pub fn goes_along_paths()
    ensures { GoesAlongPaths }
{}
