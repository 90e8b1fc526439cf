//! The laws.

ghost use Rattle.xs_paths.specs.Carried.{AcceptedByLaw, AcceptedFromLaw, ArrivalsLaw, SeenLaw, TargetsLaw};
ghost use Rattle.xs_paths.specs.Examples.{NoCircuit, OneCircuit, TwoCircuits};
ghost use Rattle.xs_paths.specs.Flags.{EmptyLaw, FlagsLaw, LeafLaw};
ghost use Rattle.xs_paths.specs.Layers.{LayerLaw, LayerReachLaw};
ghost use Rattle.xs_paths.specs.Reach.{LiveReachLaw, ReachLaw};
ghost use Rattle.xs_paths.specs.Round.{CircuitSizeLaw, CircuitTestLaw, RoundLaw};
ghost use Rattle.xs_paths.specs.Steps.{CircuitStepsLaw, WalkLaw};
ghost use Rattle.xs_paths.specs.Walk.{CircuitLaw};

/// A circuit is a walk that meets each moved place.
pub fn circuit_is_walked()
    ensures { CircuitLaw }
{}

/// A circuit is a walk by steps.
pub fn circuit_is_stepped()
    ensures { CircuitStepsLaw }
{}

/// What the walk meets are indices.
pub fn walk_is_inside()
    ensures { WalkLaw }
{}

/// A circuit is one walk once round.
pub fn circuit_goes_round()
    ensures { RoundLaw }
{}

/// A test finds a circuit, with a size or without one.
pub fn circuit_is_tested()
    ensures { CircuitTestLaw }
{}

/// A circuit with a size is a walk by steps, and the size a sum.
pub fn circuit_has_size()
    ensures { CircuitSizeLaw }
{}

/// What is seen is carried along.
pub fn seen_is_carried()
    ensures { SeenLaw }
{}

/// The values are accepted where some final state is reached.
pub fn accepted_is_reached()
    ensures { ReachLaw }
{}

/// The same, by live states alone.
pub fn accepted_is_met()
    ensures { LiveReachLaw }
{}

/// A layer holds what is live there.
pub fn layer_is_live()
    ensures { LayerLaw }
{}

/// The values are accepted where a final state of the last layer is reached.
pub fn accepted_in_layer()
    ensures { LayerReachLaw }
{}

/// What is accepted is reached from layer to layer.
pub fn accepted_is_carried()
    ensures { AcceptedFromLaw }
{}

/// The same, with the truths beside the states.
pub fn accepted_is_carried_by()
    ensures { AcceptedByLaw }
{}

/// The states of the next layer are the targets of the transitions that arrive.
pub fn targets_are_arrivals()
    ensures { TargetsLaw }
{}

/// Such a state is reached where one of these is.
pub fn next_is_arrival()
    ensures { ArrivalsLaw }
{}

/// What is accepted is tested by flags of the states.
pub fn accepted_is_flagged()
    ensures { FlagsLaw }
{}

/// A diagram accepts what leads to its leaf.
pub fn leaf_is_final()
    ensures { LeafLaw }
{}

/// A diagram whose leaf is not its root accepts no empty list.
pub fn empty_leads_nowhere()
    ensures { EmptyLaw }
{}

/// An example: two circuits side by side are none.
pub fn two_circuits()
    ensures { TwoCircuits }
{}

/// An example: a place that stays, and a circuit of two.
pub fn one_circuit()
    ensures { OneCircuit }
{}

/// An example: an empty list has no circuit.
pub fn no_circuit()
    ensures { NoCircuit }
{}
