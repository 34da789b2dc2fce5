// What is chosen when a box is built: its start, its design flows and its reading of the airflow sensor alarm. It stays with the box, and goes with every tick from the box to the stages.
#![tactic(auto)]

ghost use Rattle.std.specs.Prelude.{◌≡◌};
ghost use Rattle.box_choices.specs.BoxChoices as BoxChoices;

// Flows in cubic metres a second. What building takes is checked there; a stage takes any. The start and the reading are flags and no enums, since C has this record as it stands.
// The first reading of the airflow sensor alarm: flow has been high with the fan off for ten minutes. The second: the fan has been off for ten minutes, and flow is high now.
#[repr(C)]
#[derive(Clone, Copy)]
pub struct Choices {
    pub quiet: bool,
    pub design_minimum_flow: f64,
    pub design_cooling_maximum_flow: f64,
    pub second_reading: bool,
}

impl Choices {
    // The design flows and the reading of the published Rust, which a box has that is built without naming any.
    pub fn usual(quiet: bool) -> Choices
        ensures { result ≡ BoxChoices.usual quiet }
    {
        Choices {
            quiet,
            design_minimum_flow: 0.5,
            design_cooling_maximum_flow: 1.5,
            second_reading: false,
        }
    }
}
