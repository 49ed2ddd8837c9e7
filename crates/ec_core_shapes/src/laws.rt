//! The laws of the weight by shapes: each function proves one, and does nothing.
ghost use Rattle.ec_shapes.specs.Shapes.{IsTest};
ghost use Rattle.ec_core_shapes.specs.Shapes.{same_shape};
ghost use Rattle.ec_core_shapes.specs.SharedWeight.{SharedWeightIsNoMore, WeightCountsParts};

/// Two shapes are told to be the same exactly where they are equal.
pub fn shapes_are_told()
    ensures { IsTest same_shape }
{}

/// The weight of a program is the sum of the rows of its parts, each as often as it stands there.
pub fn weight_counts_parts()
    ensures { WeightCountsParts }
{}

/// Counted by shapes, a program weighs no more than where each use counts by itself.
pub fn shared_weight_is_no_more()
    ensures { SharedWeightIsNoMore }
{}
