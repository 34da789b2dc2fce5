// A tick of a box behind `&mut`, as the Rust's `output` has it: the method by value, and its box stored.
#![tactic(auto)]

ghost use Rattle.std.specs.Prelude.{◌≡◌};
ghost use Rattle.air_box.specs.AirBox as AirBoxes;

use air_box::{AirBox, Answer, Tick};

// One tick: the box is the next one as the call returns, or the old one where the tick is refused.
pub fn tick_lent(b: &mut AirBox, tick: Tick) -> Answer
    ensures { (b.new ≡ (AirBoxes.tick b.old tick).state) × (result ≡ (AirBoxes.tick b.old tick).answer) }
{
    let step = b.tick(tick);
    *b = step.state;
    step.answer
}
