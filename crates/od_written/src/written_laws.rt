//! The laws of patterns that are written out, which hold of every value.
//!
//! A law is what a function here ensures; the function itself does nothing.
ghost use Rattle.od_written.specs.Events.{EventsReadBack};
ghost use Rattle.od_written.specs.Hops.{HopsReadBack, StepsReadBack};
ghost use Rattle.od_written.specs.Paths.{PathsReadBack, PathsAreWritable};
ghost use Rattle.od_written.specs.Surfaces.{SurfacesReadBack, SurfacesAreWritable};

/// A path that is written out is a word of the grammar for itself, whatever follows; and each path
/// of the grammar can be written, as far as its constraints can.
#[tactic(auto, using(crate::proofs::Paths::paths_read_back, crate::proofs::PathShapes::paths_are_writable))]
pub fn paths_read_back()
    ensures back { PathsReadBack }
    ensures writable { PathsAreWritable }
{}

/// The same of surface patterns.
#[tactic(auto, using(crate::proofs::Surfaces::surfaces_read_back, crate::proofs::SurfaceShapes::surfaces_are_writable))]
pub fn surfaces_read_back()
    ensures back { SurfacesReadBack }
    ensures writable { SurfacesAreWritable }
{}

/// The same of steps, with each bracket told apart.
#[tactic(auto, using(crate::proofs::Steps::steps_read_back))]
pub fn steps_read_back()
    ensures { StepsReadBack }
{}

/// A hop that is written out is a word of the grammar for itself, with each bracket told apart.
#[tactic(auto, using(crate::proofs::Hops::hops_read_back))]
pub fn hops_read_back()
    ensures { HopsReadBack }
{}

/// Lines that an event rule is written out in are that rule, where the trigger and the paths keep
/// their rules.
#[tactic(auto, using(crate::proofs::Events::events_read_back))]
pub fn events_read_back()
    ensures { EventsReadBack }
{}
