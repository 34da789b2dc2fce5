// Airflow, system requests and alarms, as in cooling_only_controller_airflow.rs.
// A stage takes the tick's time, its input and the box's choices one by one: `t` and `input` are the Rust's, `t` goes on to the blocks alone, and the choices are a record already.
// Modes, zone states and overrides are numbers, since a caller may pass any i64, and levels are, since C reads them.
#![tactic(auto)]

ghost use Rattle.std.specs.Prelude.{◌≡◌};
ghost use Rattle.cooling_only_controller_airflow.specs.Airflow as Airflow;
ghost use Rattle.cooling_only_controller_airflow.specs.AirflowPieces as AirflowPieces;

use box_choices::Choices;
use cdl_recurrences::{DeadBandOutput, greater_hysteretic, hysteresis, less_hysteretic};
use cooling_only_controller_timing::{SamplerState, Step, TrueDelayState};
use f64_helpers::choose;

// Two of these the other source file has as well, in the Rust too.
const TEMPERATURE_HYSTERESIS: f64 = 0.25;

const FLOW_HYSTERESIS: f64 = 0.01;

const DAMPER_POSITION_HYSTERESIS: f64 = 0.01;

const SAMPLE_PERIOD: f64 = 120.0;

#[derive(Clone, Copy)]
pub struct DamperInput {
    pub active_minimum_flow: f64,
    pub supply_air_temperature: f64,
    pub zone_temperature: f64,
    pub cooling_loop: f64,
    pub active_cooling_maximum_flow: f64,
    pub zone_state: i64,
    pub airflow_override_index: i64,
    pub supply_fan_status: bool,
    pub discharge_airflow: f64,
    pub damper_override_index: i64,
}

#[derive(Clone, Copy)]
pub struct DamperOutput {
    pub airflow_setpoint: f64,
    pub damper_command: f64,
}

#[derive(Clone, Copy, Default)]
pub struct DamperState {
    pub supply_warm: bool,
    pub integrator: f64,
    pub previous_time: Option<f64>,
    pub previous_fan: bool,
}

impl DamperState {
    pub fn fresh() -> DamperState
        ensures { result ≡ Airflow.fresh_damper }
    {
        DamperState::default()
    }

    // The PI's output is formed with the old integrator, which a starting fan resets. The loops' PI is written out likewise, as in the Rust.
    #[tactic(auto, using(f64_helpers::proofs::Integers::i64_kept, cooling_only_controller_timing::proofs::Literals::literals), unfolding(crate::specs::Airflow::damper, crate::specs::AirflowPieces::airflow_setpoint, crate::specs::AirflowPieces::airflow_override, crate::specs::AirflowPieces::damper_override))]
    pub fn output(
        self,
        t: f64,
        input: DamperInput,
        choices: Choices,
    ) -> Step<DamperState, DamperOutput>
        ensures { result ≡ Airflow.damper self t input choices }
    {
        let supply_warm = greater_hysteretic(
            input.supply_air_temperature,
            input.zone_temperature,
            TEMPERATURE_HYSTERESIS,
            self.supply_warm,
        )
        .output;
        let airflow_setpoint = airflow_setpoint(input, supply_warm, choices);
        let maximum = choices.design_cooling_maximum_flow;
        let normalized_setpoint = airflow_setpoint / maximum;
        let normalized_measurement = input.discharge_airflow / maximum;
        let error = normalized_setpoint - normalized_measurement;
        let proportional = 0.5 * error;
        let unlimited = proportional + self.integrator;
        let pid_output = cdl_recurrences::clamp(unlimited, 0.0, 1.0);
        let dt = cooling_only_controller_timing::step_seconds(self.previous_time, t);
        let anti_windup = (unlimited - pid_output) / (0.5 * 0.9);
        let integrator = choose(
            input.supply_fan_status & !self.previous_fan,
            0.01 - proportional,
            self.integrator + (0.5 / 300.0) * (error - anti_windup) * dt,
        );
        let damper_command = damper_override(input.damper_override_index, pid_output);
        Step {
            state: DamperState {
                supply_warm,
                integrator,
                previous_time: Some(t),
                previous_fan: input.supply_fan_status,
            },
            output: DamperOutput {
                airflow_setpoint,
                damper_command,
            },
        }
    }
}

// The setpoint that the cooling loop asks for in the cooling state with cool supply air, else the minimum; an override comes first.
#[tactic(auto, using(f64_helpers::proofs::Integers::i64_kept, f64_helpers::proofs::Integers::equals_literal, cooling_only_controller_timing::proofs::Literals::literals), unfolding(crate::specs::AirflowPieces::airflow_setpoint, crate::specs::AirflowPieces::airflow_override))]
fn airflow_setpoint(input: DamperInput, supply_warm: bool, choices: Choices) -> f64
    ensures { result ≡ AirflowPieces.airflow_setpoint input supply_warm choices }
{
    let mapped = cdl_recurrences::buildings_line(
        0.0,
        input.active_minimum_flow,
        1.0,
        input.active_cooling_maximum_flow,
        input.cooling_loop,
    );
    let active = choose(supply_warm, input.active_minimum_flow, mapped);
    let base = choose(input.zone_state == 3, active, input.active_minimum_flow);
    airflow_override(input.airflow_override_index, base, choices)
}

// Override 1 closes, 2 and 3 ask for the design maximum and minimum; any other index leaves the base.
#[tactic(auto, unfolding(crate::specs::AirflowPieces::airflow_override))]
fn airflow_override(index: i64, base: f64, choices: Choices) -> f64
    ensures { result ≡ AirflowPieces.airflow_override index base choices }
{
    match index {
        1 => 0.0,
        2 => choices.design_cooling_maximum_flow,
        3 => choices.design_minimum_flow,
        _ => base,
    }
}

// Override 1 closes, 2 opens; any other index leaves the PI's output.
#[tactic(auto, using(cooling_only_controller_timing::proofs::Literals::literals), unfolding(crate::specs::AirflowPieces::damper_override))]
fn damper_override(index: i64, pid_output: f64) -> f64
    ensures { result ≡ AirflowPieces.damper_override index pid_output }
{
    match index {
        1 => 0.0,
        2 => 1.0,
        _ => pid_output,
    }
}

#[derive(Clone, Copy)]
pub struct SystemRequestInput {
    pub after_suppression: bool,
    pub cooling_setpoint: f64,
    pub zone_temperature: f64,
    pub cooling_loop: f64,
    pub airflow_setpoint: f64,
    pub discharge_airflow: f64,
    pub damper_position: f64,
}

#[derive(Clone, Copy)]
pub struct SystemRequestOutput {
    pub temperature: i64,
    pub pressure: i64,
}

#[derive(Clone, Copy, Default)]
pub struct SystemRequestsState {
    pub hot_three: bool,
    pub hot_two: bool,
    pub hot_three_delay: TrueDelayState,
    pub hot_two_delay: TrueDelayState,
    pub cooling_sampler: SamplerState,
    pub setpoint_sampler: SamplerState,
    pub discharge_sampler: SamplerState,
    pub damper_sampler: SamplerState,
    pub cooling_high: bool,
    pub setpoint_on: bool,
    pub damper_high: bool,
    pub damper_delay: TrueDelayState,
    pub starved_half: bool,
    pub starved_seventy: bool,
}

// The memories of the temperature request after a tick, and its level. No `Step`, like the three others of this kind: the memories are some of the stage's, and no state of their own.
#[derive(Clone, Copy)]
struct TemperatureRequestStep {
    hot_three: bool,
    hot_two: bool,
    hot_three_delay: TrueDelayState,
    hot_two_delay: TrueDelayState,
    cooling_sampler: SamplerState,
    cooling_high: bool,
    temperature: i64,
}

// The memories of the pressure request after a tick, and its level.
#[derive(Clone, Copy)]
struct PressureRequestStep {
    setpoint_sampler: SamplerState,
    discharge_sampler: SamplerState,
    damper_sampler: SamplerState,
    setpoint_on: bool,
    damper_high: bool,
    damper_delay: TrueDelayState,
    starved_half: bool,
    starved_seventy: bool,
    pressure: i64,
}

impl SystemRequestsState {
    pub fn fresh() -> SystemRequestsState
        ensures { result ≡ Airflow.fresh_system_requests }
    {
        SystemRequestsState::default()
    }

    pub fn output(
        self,
        t: f64,
        input: SystemRequestInput,
        choices: Choices,
    ) -> Step<SystemRequestsState, SystemRequestOutput>
        ensures { result ≡ Airflow.system_requests self t input choices }
    {
        let temperature = self.temperature_request(t, input, choices);
        let pressure = self.pressure_request(t, input, choices);
        system_requests_step(temperature, pressure)
    }

    #[tactic(auto, using(f64_helpers::proofs::Integers::i64_kept, cooling_only_controller_timing::proofs::Literals::literals), unfolding(crate::specs::Airflow::system_requests))]
    fn temperature_request(
        self,
        t: f64,
        input: SystemRequestInput,
        choices: Choices,
    ) -> TemperatureRequestStep
        ensures { result ≡ AirflowPieces.temperature_request self t input choices }
    {
        let temperature_difference = input.zone_temperature - input.cooling_setpoint;
        let hot_three = hysteresis(temperature_difference, 2.75, 3.0, self.hot_three).output;
        let hot_two = hysteresis(temperature_difference, 1.75, 2.0, self.hot_two).output;
        let hot_three_held = self
            .hot_three_delay
            .output(t, hot_three, 120.0, choices.quiet);
        let hot_two_held = self.hot_two_delay.output(t, hot_two, 120.0, choices.quiet);
        let sampled_cooling = self
            .cooling_sampler
            .sample(t, input.cooling_loop, SAMPLE_PERIOD);
        let cooling_high = hysteresis(sampled_cooling.output, 0.94, 0.95, self.cooling_high).output;
        let temperature = request_level(
            input.after_suppression & hot_three_held.output,
            input.after_suppression & hot_two_held.output,
            cooling_high,
        );
        TemperatureRequestStep {
            hot_three,
            hot_two,
            hot_three_delay: hot_three_held.state,
            hot_two_delay: hot_two_held.state,
            cooling_sampler: sampled_cooling.state,
            cooling_high,
            temperature,
        }
    }

    // The damper's sampler sees the command after its override.
    #[tactic(auto, using(f64_helpers::proofs::Integers::i64_kept, cooling_only_controller_timing::proofs::Literals::literals), unfolding(crate::specs::Airflow::system_requests))]
    fn pressure_request(
        self,
        t: f64,
        input: SystemRequestInput,
        choices: Choices,
    ) -> PressureRequestStep
        ensures { result ≡ AirflowPieces.pressure_request self t input choices }
    {
        let sampled_setpoint = self
            .setpoint_sampler
            .sample(t, input.airflow_setpoint, SAMPLE_PERIOD);
        let sampled_discharge = self
            .discharge_sampler
            .sample(t, input.discharge_airflow, SAMPLE_PERIOD);
        let sampled_damper = self
            .damper_sampler
            .sample(t, input.damper_position, SAMPLE_PERIOD);
        let setpoint_on = hysteresis(sampled_setpoint.output, 0.005, 0.01, self.setpoint_on).output;
        let damper_high = hysteresis(sampled_damper.output, 0.94, 0.95, self.damper_high).output;
        let damper_held = self
            .damper_delay
            .output(t, damper_high, 60.0, choices.quiet);
        let starved_half = starved(
            0.5,
            sampled_setpoint.output,
            sampled_discharge.output,
            self.starved_half,
        );
        let starved_seventy = starved(
            0.7,
            sampled_setpoint.output,
            sampled_discharge.output,
            self.starved_seventy,
        );
        let gate = setpoint_on & damper_held.output;
        let pressure = request_level(gate & starved_half, gate & starved_seventy, damper_high);
        PressureRequestStep {
            setpoint_sampler: sampled_setpoint.state,
            discharge_sampler: sampled_discharge.state,
            damper_sampler: sampled_damper.state,
            setpoint_on,
            damper_high,
            damper_delay: damper_held.state,
            starved_half,
            starved_seventy,
            pressure,
        }
    }
}

// Whether the flow falls short of a share of the setpoint.
#[tactic(auto, using(cooling_only_controller_timing::proofs::Literals::literals))]
fn starved(share: f64, setpoint: f64, discharge: f64, previous: bool) -> bool
    ensures { result ≡ AirflowPieces.starved share setpoint discharge previous }
{
    greater_hysteretic(share * setpoint, discharge, FLOW_HYSTERESIS, previous).output
}

// The two requests' memories and levels, put together.
fn system_requests_step(
    temperature: TemperatureRequestStep,
    pressure: PressureRequestStep,
) -> Step<SystemRequestsState, SystemRequestOutput>
    ensures { result ≡ AirflowPieces.system_requests_step temperature pressure }
{
    Step {
        state: SystemRequestsState {
            hot_three: temperature.hot_three,
            hot_two: temperature.hot_two,
            hot_three_delay: temperature.hot_three_delay,
            hot_two_delay: temperature.hot_two_delay,
            cooling_sampler: temperature.cooling_sampler,
            setpoint_sampler: pressure.setpoint_sampler,
            discharge_sampler: pressure.discharge_sampler,
            damper_sampler: pressure.damper_sampler,
            cooling_high: temperature.cooling_high,
            setpoint_on: pressure.setpoint_on,
            damper_high: pressure.damper_high,
            damper_delay: pressure.damper_delay,
            starved_half: pressure.starved_half,
            starved_seventy: pressure.starved_seventy,
        },
        output: SystemRequestOutput {
            temperature: temperature.temperature,
            pressure: pressure.pressure,
        },
    }
}

// A number, as C reads it in the output.
fn request_level(three: bool, two: bool, one: bool) -> i64
    ensures { result ≡ Airflow.request_level three two one }
{
    if three {
        3
    } else if two {
        2
    } else if one {
        1
    } else {
        0
    }
}

#[derive(Clone, Copy)]
pub struct AlarmInput {
    pub discharge_airflow: f64,
    pub active_airflow_setpoint: f64,
    pub supply_fan_status: bool,
    pub operation_mode: i64,
    pub damper_position: f64,
}

#[derive(Clone, Copy)]
pub struct AlarmOutput {
    pub low_airflow: i64,
    pub airflow_sensor: i64,
    pub leaking_damper: i64,
}

#[derive(Clone, Copy, Default)]
pub struct AlarmsState {
    pub fan_armed: TrueDelayState,
    pub setpoint_nonzero: bool,
    pub setpoint_on: TrueDelayState,
    pub low_half: bool,
    pub low_seventy: bool,
    pub low_half_delay: TrueDelayState,
    pub low_seventy_delay: TrueDelayState,
    pub flow_high: bool,
    pub sensor_delay: TrueDelayState,
    pub damper_closed: bool,
    pub leak_delay: TrueDelayState,
}

// The memories of the low airflow alarm after a tick, and its level.
#[derive(Clone, Copy)]
struct LowAirflowStep {
    fan_armed: TrueDelayState,
    setpoint_nonzero: bool,
    setpoint_on: TrueDelayState,
    low_half: bool,
    low_seventy: bool,
    low_half_delay: TrueDelayState,
    low_seventy_delay: TrueDelayState,
    low_airflow: i64,
}

// The memories of the airflow sensor alarm and the leaking damper alarm after a tick, and their levels.
#[derive(Clone, Copy)]
struct SensorLeakStep {
    flow_high: bool,
    sensor_delay: TrueDelayState,
    airflow_sensor: i64,
    damper_closed: bool,
    leak_delay: TrueDelayState,
    leaking_damper: i64,
}

impl AlarmsState {
    pub fn fresh() -> AlarmsState
        ensures { result ≡ Airflow.fresh_alarms }
    {
        AlarmsState::default()
    }

    pub fn output(
        self,
        t: f64,
        input: AlarmInput,
        choices: Choices,
    ) -> Step<AlarmsState, AlarmOutput>
        ensures { result ≡ Airflow.alarms self t input choices }
    {
        let low = self.low_airflow(t, input, choices);
        let sensor_leak = self.sensor_leak(t, input, choices);
        alarms_step(low, sensor_leak)
    }

    // Both low-flow memories move on every tick, whether the fan is armed or not.
    #[tactic(auto, using(f64_helpers::proofs::Integers::i64_kept, cooling_only_controller_timing::proofs::Literals::literals), unfolding(crate::specs::Airflow::alarms))]
    fn low_airflow(self, t: f64, input: AlarmInput, choices: Choices) -> LowAirflowStep
        ensures { result ≡ AirflowPieces.low_airflow self t input choices }
    {
        let flow = input.discharge_airflow;
        let setpoint = input.active_airflow_setpoint;
        // The same with both starts: a box that restarts mostly finds its fan long on.
        let fan_armed = self
            .fan_armed
            .output(t, input.supply_fan_status, 1800.0, false);
        let setpoint_nonzero = hysteresis(setpoint, 0.005, 0.01, self.setpoint_nonzero).output;
        let setpoint_on = self
            .setpoint_on
            .output(t, setpoint_nonzero, 300.0, choices.quiet);
        let low_half = less_hysteretic(flow, 0.5 * setpoint, FLOW_HYSTERESIS, self.low_half).output;
        let low_seventy = starved(0.7, setpoint, flow, self.low_seventy);
        let half_low = low_half & fan_armed.output;
        let low_half_held = self
            .low_half_delay
            .output(t, half_low, 300.0, choices.quiet);
        let seventy_low = low_seventy & fan_armed.output;
        let low_seventy_held = self
            .low_seventy_delay
            .output(t, seventy_low, 300.0, choices.quiet);
        let low_airflow = low_airflow_level(
            low_half_held.output,
            low_seventy_held.output,
            setpoint_on.output,
            input.operation_mode,
        );
        LowAirflowStep {
            fan_armed: fan_armed.state,
            setpoint_nonzero,
            setpoint_on: setpoint_on.state,
            low_half,
            low_seventy,
            low_half_delay: low_half_held.state,
            low_seventy_delay: low_seventy_held.state,
            low_airflow,
        }
    }

    #[tactic(auto, using(f64_helpers::proofs::Integers::i64_kept, f64_helpers::proofs::Integers::equals_literal, cooling_only_controller_timing::proofs::Literals::literals, crate::proofs::ByPieces::sensor_input_by_code, crate::proofs::ByPieces::sensor_on_by_code), unfolding(crate::specs::Airflow::alarms))]
    fn sensor_leak(self, t: f64, input: AlarmInput, choices: Choices) -> SensorLeakStep
        ensures { result ≡ AirflowPieces.sensor_leak self t input choices }
    {
        let occupied = input.operation_mode == 1;
        let fan = input.supply_fan_status;
        let flow_high = flow_high(input.discharge_airflow, choices, self.flow_high).output;
        // In the second reading the delay runs on the fan alone, and flow has to be high at this tick.
        let second = choices.second_reading;
        let sensor_held = self
            .sensor_delay
            .output(t, (second | flow_high) & !fan, 600.0, choices.quiet);
        let sensor_on = sensor_held.output & (!second | flow_high);
        let airflow_sensor = choose(sensor_on & occupied, 3, 0);
        let damper_closed = damper_closed(input.damper_position, self.damper_closed).output;
        let leaking = fan & damper_closed & flow_high;
        let leak_held = self.leak_delay.output(t, leaking, 600.0, choices.quiet);
        let leaking_damper = choose(leak_held.output, 4, 0);
        SensorLeakStep {
            flow_high,
            sensor_delay: sensor_held.state,
            airflow_sensor,
            damper_closed,
            leak_delay: leak_held.state,
            leaking_damper,
        }
    }
}

// Whether flow is high, above a tenth of the cooling maximum, and whether memory decided that. The box tells it beside the reason for no alarm.
#[tactic(auto, using(cooling_only_controller_timing::proofs::Literals::literals))]
pub fn flow_high(discharge_airflow: f64, choices: Choices, previous: bool) -> DeadBandOutput
    ensures { result ≡ AirflowPieces.flow_high discharge_airflow choices previous }
{
    let limit = 0.1 * choices.design_cooling_maximum_flow;
    greater_hysteretic(discharge_airflow, limit, FLOW_HYSTERESIS, previous)
}

// Whether the damper is closed, and whether memory decided that.
#[tactic(auto, using(cooling_only_controller_timing::proofs::Literals::literals))]
pub fn damper_closed(damper_position: f64, previous: bool) -> DeadBandOutput
    ensures { result ≡ AirflowPieces.damper_closed damper_position previous }
{
    less_hysteretic(
        damper_position,
        DAMPER_POSITION_HYSTERESIS,
        0.5 * DAMPER_POSITION_HYSTERESIS,
        previous,
    )
}

// The alarms' memories and levels, put together.
fn alarms_step(low: LowAirflowStep, sensor_leak: SensorLeakStep) -> Step<AlarmsState, AlarmOutput>
    ensures { result ≡ AirflowPieces.alarms_step low sensor_leak }
{
    Step {
        state: AlarmsState {
            fan_armed: low.fan_armed,
            setpoint_nonzero: low.setpoint_nonzero,
            setpoint_on: low.setpoint_on,
            low_half: low.low_half,
            low_seventy: low.low_seventy,
            low_half_delay: low.low_half_delay,
            low_seventy_delay: low.low_seventy_delay,
            flow_high: sensor_leak.flow_high,
            sensor_delay: sensor_leak.sensor_delay,
            damper_closed: sensor_leak.damper_closed,
            leak_delay: sensor_leak.leak_delay,
        },
        output: AlarmOutput {
            low_airflow: low.low_airflow,
            airflow_sensor: sensor_leak.airflow_sensor,
            leaking_damper: sensor_leak.leaking_damper,
        },
    }
}

// Level 2 comes before level 3. A number, as C reads it in the output.
fn low_airflow_level(
    low_half_held: bool,
    low_seventy_held: bool,
    setpoint_on: bool,
    operation_mode: i64,
) -> i64
    ensures { result ≡ AirflowPieces.low_airflow_level low_half_held low_seventy_held setpoint_on operation_mode }
{
    let occupied = operation_mode == 1;
    let level_two = low_half_held & setpoint_on & occupied;
    let level_three = low_seventy_held & setpoint_on & occupied;
    if level_two {
        2
    } else if level_three {
        3
    } else {
        0
    }
}
