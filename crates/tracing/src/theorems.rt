// What the paths handed out are, and that a settled solve can be traced: theorems, for every measure.
ghost use Rattle.tracing.specs.Standing.{SolvesTraced, Segments};

use measure::Measure;

// A settled solve's tables are what a trace asks for, and a new cursor stands on them with no path handed out.
pub fn solves_can_be_traced<M: Measure>()
    ensures { SolvesTraced M.Measure.algebra }
{}

// The paths handed out are an initial segment, in order and each once, of all paths to the node.
pub fn paths_are_an_initial_segment<M: Measure>()
    ensures { Segments M.Measure.algebra }
{}
