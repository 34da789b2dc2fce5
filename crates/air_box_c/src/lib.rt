// The C interface: the exported functions. They answer with a number, since C has no Result, or with a record of numbers and flags. The box as such a record is in records.rt, the parts of a tick are in stages.rt.
#![tactic(auto)]

ghost use Rattle.std.specs.Prelude.{◌≡◌};
ghost use Rattle.box_choices.specs.BoxChoices as BoxChoices;
ghost use Rattle.air_box.specs.AirBox as AirBoxes;
ghost use Rattle.air_box_c.specs.Promises as Promises;

pub mod records;
mod stages;

use air_box::{AirBox, Tick};
use box_choices::Choices;
use cooling_only_controller::ControllerOutput;
use records::{AirBoxC, LeakReasonC, SensorReasonC};

// A box that has had no tick, with the usual design flows and the first reading.
#[unsafe(no_mangle)]
#[tactic(auto, using(crate::proofs::OpenShut::fresh_opened))]
pub extern "C" fn air_box_fresh(quiet: bool) -> AirBoxC
    ensures { Promises.Fresh (BoxChoices.usual quiet) result }
{
    AirBoxC::fresh(Choices::usual(quiet))
}

// Puts a box that has had no tick, with these choices, in the place of the one at b: 0; or 8 where a design flow is out of its range, and the box at b is as it was.
// The record at b is not read, and it is written only on 0.
#[unsafe(no_mangle)]
pub extern "C" fn air_box_build(b: &mut AirBoxC, choices: Choices) -> u8
    ensures { Promises.BuiltAt b.old choices b.new result }
{
    match AirBox::build(choices) {
        Ok(_) => {
            *b = AirBoxC::fresh(choices);
            0
        }
        Err(refusal) => refusal.into(),
    }
}

// One tick of the box at b: 0, the next box and its outputs; or the number of the refusal, with box and output as they were.
// It is run part by part, in place: the questions are asked of `last`, then each part is read, run and stored before the next,
// `last` at the end with the output. The record copied out and in as a whole costs more.
#[unsafe(no_mangle)]
pub extern "C" fn air_box_tick(b: &mut AirBoxC, tick: &Tick, output: &mut ControllerOutput) -> u8
    ensures { Promises.Ticked b.old tick.now output.old b.new output.new result }
{
    match b.last.question(*tick) {
        Ok(start) => {
            let suppression = b.time_suppression.tick(start);
            b.time_suppression = suppression.state;
            let airflow = b.airflow.tick(suppression.output);
            b.airflow = airflow.state;
            let requests = b.system_requests.tick(airflow.output);
            b.system_requests = requests.state;
            let alarms = b.alarms.tick(requests.output);
            b.alarms = alarms.state;
            let last = b.last.tick(alarms.output);
            b.last = last.state;
            *output = last.output;
            0
        }
        Err(reason) => reason.into(),
    }
}

// Why the box at b shows no airflow sensor alarm, after its last accepted tick. The box is read, and not written.
#[unsafe(no_mangle)]
#[tactic(auto, unfolding(crate::specs::Records::open_box))]
pub extern "C" fn air_box_sensor_reason(b: &AirBoxC) -> SensorReasonC
    ensures { result ≡ Promises.sensor_told b.now }
{
    air_box::sensor_reason(b.last.tick.into(), b.alarms.into()).into()
}

// Why it shows no leaking damper alarm.
#[unsafe(no_mangle)]
#[tactic(auto, unfolding(crate::specs::Records::open_box))]
pub extern "C" fn air_box_leak_reason(b: &AirBoxC) -> LeakReasonC
    ensures { result ≡ Promises.leak_told b.now }
{
    air_box::leak_reason(b.last.tick.into(), b.alarms.into()).into()
}

// One number from the three alarms.
#[unsafe(no_mangle)]
#[tactic(auto, using(f64_helpers::proofs::Integers::i64_kept))]
pub extern "C" fn air_box_desk_code(
    low_airflow: i64,
    airflow_sensor: i64,
    leaking_damper: i64,
) -> u8
    ensures { result ≡ AirBoxes.desk_code low_airflow airflow_sensor leaking_damper }
{
    air_box::desk_code(low_airflow, airflow_sensor, leaking_damper)
}
