// How far a frame moves.

#![tactic(auto)]

ghost use Rattle.std.specs.Prelude.{◌≡◌, ◌<◌};
ghost use Rattle.frame.specs.Limits.{most_frames};
ghost use Rattle.displacement.specs.Displacement.{displacement as displacementOf};

// The displacement of a frame that is recorded at a place and stands at another of the order.
pub fn displacement(order: usize, place: usize) -> i32
    requires { (order < most_frames) × (place < most_frames) }
    ensures { result ≡ displacementOf order place }
{
    (order as i32) - (place as i32)
}
