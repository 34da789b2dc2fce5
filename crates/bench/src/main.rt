// Bench cases that are run: document 01's first ticks 130, 190 and 250 and every refusal, and document 02's quiet start with low flow, which is proved too, night of a leak with low flow, and dead bands with their memory. What it prints is held to the file stdout.
#![tactic(auto)]

use air_box::{AirBox, AirBoxStep, Start, Tick, desk_code};
use cdl_recurrences::{DeadBandOutput, greater_hysteretic, hysteresis, less_hysteretic};
use cooling_only_controller::{ControllerInput, ControllerOutput};
use std::fmt::{self, Display};
use std::io;
use streams::Reason;

// Calm readings in mode 1. The cases vary some of them.
fn calm() -> ControllerInput {
    ControllerInput {
        zone_temperature: 296.0,
        cooling_setpoint: 297.0,
        heating_setpoint: 293.0,
        window_status: true,
        occupancy_status: true,
        operating_mode: 1,
        co2_setpoint: 894.0,
        co2_concentration: 600.0,
        discharge_air_temperature: 288.0,
        supply_air_temperature: 287.0,
        discharge_airflow: 0.5,
        airflow_override_index: 0,
        damper_override_index: 0,
        supply_fan_status: true,
    }
}

fn at(t: f64) -> Tick {
    Tick { t, input: calm() }
}

// The number that the C interface answers: 0 for an accepted tick, else that of the refusal.
fn number(step: AirBoxStep) -> u8 {
    match step.answer {
        Ok(_) => 0,
        Err(reason) => reason.into(),
    }
}

// The outputs of an accepted tick.
fn outputs(step: AirBoxStep) -> Option<ControllerOutput> {
    step.answer.ok()
}

fn print<T: Display + Drop>(rt: HostRuntime, label: &str, value: T) {
    if let Err(error) = println!(rt; "{label} {value}") {
        cannot_write(rt, error);
    }
}

fn cannot_write(rt: HostRuntime, error: io::Error) {
    let _ = eprintln!(rt; "bench: cannot write: {}", Reason(error));
}

// A flag that was seen, printed as 1 or 0; 2 stands where what is seen does not hold together.
#[derive(Clone, Copy)]
struct Seen(Option<bool>);

impl Display for Seen {
    fn fmt<W: fmt::Write>(&self, f: &mut fmt::Formatter<W>) -> fmt::Result {
        f.write_str(match self.0 {
            Some(true) => "1",
            Some(false) => "0",
            None => "2",
        })
    }
}

// The unit delay gives 0.0 at 250 after a first tick off the grid, so a setpoint change is seen there.
fn first_ticks(rt: HostRuntime) {
    let mut b = AirBox::fresh(Start::Plain);
    for (label, t) in [
        ("130 suppression", 130.0),
        ("190 suppression", 190.0),
        ("250 suppression", 250.0),
    ] {
        b = b.tick(at(t)).state;
        print(
            rt,
            label,
            u8::from(b.state.time_suppression.previous_active),
        );
    }
    let delayed = b.state.time_suppression.previous_sample.held;
    print(rt, "250 unit delay gives 0.0", u8::from(delayed == 0.0));
}

fn refusals_of_time(rt: HostRuntime) {
    let fresh = AirBox::fresh(Start::Plain);
    for (label, t) in [
        ("t 0.5 gives", 0.5),
        ("t infinity gives", f64::INFINITY),
        ("t -1 gives", -1.0),
        ("t -0.0 gives", -0.0),
        ("t 2147483648 gives", 2147483648.0),
        ("t 2147483649 gives", 2147483649.0),
    ] {
        print(rt, label, number(fresh.tick(at(t))));
    }
    let last = fresh.tick(at(1000.0)).state;
    for (label, t) in [
        ("last 1000, 999 gives", 999.0),
        ("last 1000, 1000 gives", 1000.0),
        ("last 1000, 1240 gives", 1240.0),
        ("last 1000, 1241 gives", 1241.0),
    ] {
        print(rt, label, number(last.tick(at(t))));
    }
}

fn refusals_of_readings(rt: HostRuntime) {
    let fresh = AirBox::fresh(Start::Plain);
    for (label, t, zone_temperature, co2_concentration, discharge_airflow) in [
        ("zone 150.0 gives", 0.0, 150.0, 600.0, 0.5),
        ("zone 450.0 gives", 0.0, 450.0, 600.0, 0.5),
        ("zone 149.9 gives", 0.0, 149.9, 600.0, 0.5),
        ("CO2 10000.5 gives", 0.0, 296.0, 10000.5, 0.5),
        ("flow -10.5 gives", 0.0, 296.0, 600.0, -10.5),
        ("t 0.5 with zone NaN gives", 0.5, f64::NAN, 600.0, 0.5),
    ] {
        let input = ControllerInput {
            zone_temperature,
            co2_concentration,
            discharge_airflow,
            ..calm()
        };
        print(rt, label, number(fresh.tick(Tick { t, input })));
    }
}

// Fan on and low flow from tick 0: when the fan is armed, and when the low alarm first stands.
fn quiet_start(rt: HostRuntime) {
    let input = ControllerInput {
        discharge_airflow: 0.0,
        airflow_override_index: 2,
        ..calm()
    };
    let mut b = AirBox::fresh(Start::Quiet);
    let mut armed_before = false;
    let mut alarm_before = false;
    for minute in 0..37u64 {
        let seconds = minute * 60;
        let t = std::num::nearest_u64_to_f64(seconds);
        let step = b.tick(Tick { t, input });
        b = step.state;
        let armed = b.state.alarms.fan_armed.held;
        if armed & !armed_before {
            print(rt, "quiet start armed at", seconds);
        }
        let alarm = outputs(step).is_none_or(|output| output.low_airflow_alarm != 0);
        if alarm & !alarm_before {
            print(rt, "quiet start low alarm at", seconds);
        }
        armed_before = armed;
        alarm_before = alarm;
    }
}

// Airflow override 3 and the damper shut by its override.
fn shut(t: f64, discharge_airflow: f64, supply_fan_status: bool) -> Tick {
    let input = ControllerInput {
        discharge_airflow,
        supply_fan_status,
        airflow_override_index: 3,
        damper_override_index: 1,
        ..calm()
    };
    Tick { t, input }
}

// The code that the low alarm and the leak alarm would have alone, and the code.
fn print_codes(rt: HostRuntime, seconds: u64, output: ControllerOutput) {
    let low = output.low_airflow_alarm;
    let leak = output.leaking_damper_alarm;
    print(rt, "leak and low flow at", seconds);
    print(rt, "code of the low alarm alone", desk_code(low, 0, 0));
    print(rt, "code of the leak alarm alone", desk_code(0, 0, leak));
    print(
        rt,
        "code",
        desk_code(low, output.airflow_sensor_alarm, leak),
    );
}

// Flow 0.3 past the shut damper, from the minute after a first tick with the fan off: the codes wherever the low alarm or the leak alarm comes or goes.
fn leak_and_low_flow(rt: HostRuntime) {
    let first = shut(0.0, 0.0, false);
    let mut b = AirBox::fresh(Start::Plain).tick(first).state;
    let mut before = (0, 0);
    for minute in 1..41u64 {
        let seconds = minute * 60;
        let step = b.tick(shut(std::num::nearest_u64_to_f64(seconds), 0.3, true));
        b = step.state;
        let Some(output) = outputs(step) else {
            print(rt, "leak and low flow refused at", seconds);
            continue;
        };
        let now = (output.low_airflow_alarm, output.leaking_damper_alarm);
        if now != before {
            print_codes(rt, seconds, output);
        }
        before = now;
    }
}

// What a box keeps as flow high after a tick with this flow, and whether memory decided that, by the alarms stage's comparison at the memory from before. The tick has to be accepted, and the two answers the same.
fn print_flow(rt: HostRuntime, label: &str, b: AirBox, t: f64, flow: f64) -> AirBox {
    let input = ControllerInput {
        discharge_airflow: flow,
        supply_fan_status: false,
        ..calm()
    };
    let compared = greater_hysteretic(flow, 0.1 * 1.5, 0.01, b.state.alarms.flow_high);
    let step = b.tick(Tick { t, input });
    let after = step.state.state.alarms.flow_high;
    let sound = outputs(step).is_some() & (compared.output == after);
    let is_high = Seen(sound.then_some(after));
    let by_memory = Seen(sound.then_some(compared.decided_by_memory));
    if let Err(error) = println!(rt; "{label} is high {is_high}") {
        cannot_write(rt, error);
    }
    if let Err(error) = println!(rt; "{label} by memory {by_memory}") {
        cannot_write(rt, error);
    }
    step.state
}

fn flow_of_0_145(rt: HostRuntime) {
    let fresh = AirBox::fresh(Start::Plain);
    print_flow(rt, "first flow 0.145", fresh, 0.0, 0.145);
    let after = print_flow(rt, "flow 0.16", fresh, 0.0, 0.16);
    print_flow(rt, "flow 0.145 after 0.16", after, 60.0, 0.145);
}

// Whether memory decides at a reading. Both flags have to say so, and both answers bear it out.
fn by_memory(off: DeadBandOutput, on: DeadBandOutput) -> Seen {
    let differ = off.output != on.output;
    let sound = (off.decided_by_memory == differ) & (on.decided_by_memory == differ);
    Seen(sound.then_some(differ))
}

// A comparison at the f64 outside of the low end, the one inside of it, the one inside of the high end, the one outside of it.
fn print_ends<F: Fn(f64, bool) -> DeadBandOutput>(
    rt: HostRuntime,
    label: &str,
    ends: [f64; 4],
    compare: F,
)
    requires { F.IsAlwaysCallable compare }
{
    let [below, lowest, highest, above] = ends.map(|u| by_memory(
        compare(u, false),
        compare(u, true),
    ));
    if let Err(error) = println!(rt;
        "by memory at both ends of {label} {below} {lowest} {highest} {above}"
    ) {
        cannot_write(rt, error);
    }
}

// Every dead band of the controller. One that moves with another reading stands where that is at a usual number.
fn dead_bands(rt: HostRuntime) {
    for (label, low, high) in [
        ("heating_signal, cooling_signal", 0.01f64, 0.05f64),
        ("heating_tiebreak", -0.01, 0.01),
        ("hot_three", 2.75, 3.0),
        ("hot_two", 1.75, 2.0),
        ("cooling_high, damper_high", 0.94, 0.95),
        ("setpoint_on, setpoint_nonzero", 0.005, 0.01),
    ] {
        let ends = [low.next_down(), low, high, high.next_up()];
        print_ends(rt, label, ends, |u, on| hysteresis(u, low, high, on));
    }
    for (label, u2, h) in [
        ("cooling_enable, heating_enable", 297.0f64, 0.25f64),
        ("cooling_near_zero, heating_near_zero", 0.01, 0.008),
        ("low_half", 0.5 * 0.5, 0.01),
        ("damper_closed", 0.01, 0.5 * 0.01),
    ] {
        let ends = [u2.next_down(), u2, (u2 + h).next_down(), u2 + h];
        print_ends(rt, label, ends, |u, on| less_hysteretic(u, u2, h, on));
    }
    for (label, u2, h) in [
        ("change_detected", 0.25f64, 0.5f64 * 0.25),
        ("cooling_supply", 288.0, 0.25),
        ("supply_warm", 296.0, 0.25),
        ("starved_half, starved_seventy, low_seventy", 0.3, 0.01),
        ("flow_high", 0.1 * 1.5, 0.01),
    ] {
        let ends = [u2 - h, (u2 - h).next_up(), u2, u2.next_up()];
        print_ends(rt, label, ends, |u, on| greater_hysteretic(u, u2, h, on));
    }
}

fn main(rt: HostRuntime) {
    first_ticks(rt);
    refusals_of_time(rt);
    refusals_of_readings(rt);
    quiet_start(rt);
    leak_and_low_flow(rt);
    flow_of_0_145(rt);
    dead_bands(rt);
}
