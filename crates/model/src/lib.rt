#![tactic(auto)]

ghost use Rattle.model.specs.Examples.{ObjectsAt29And27, ShortRunAnswers, NumberEdges, ShapeEdges, ForwardingEdge, SpaceEdges};

pub mod calls;
pub mod states;

pub use calls::{Answer, Call, Kind};
pub use states::{Half, Phase, State};

/// The short run is computed on the definitions.
pub fn short_run_computed()
    ensures objects { ObjectsAt29And27 }
    ensures answers { ShortRunAnswers }
{}

/// The edges are computed on the definitions.
pub fn edges_computed()
    ensures numbers { NumberEdges }
    ensures shapes { ShapeEdges }
    ensures forwarding { ForwardingEdge }
    ensures space { SpaceEdges }
{}
