//! Laws of the definitions.
ghost use Rattle.enet_submit.specs.Rule.{TakenComesFirst};

/// Law: at every moment and in any schedule, what a seat was told Ok is its part of what was taken and then held, and it
/// begins with what was taken of the seat.
pub fn taken_of_a_seat_comes_first()
    ensures { TakenComesFirst }
{}
