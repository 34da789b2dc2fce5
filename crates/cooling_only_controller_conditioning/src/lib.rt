// Conditioning, ventilation and zone state, as in cooling_only_controller_conditioning.rs. A stage takes what it needs of the tick's time, its input and the choices one by one, since `t` alone goes on to the blocks. In order: latch, time suppression, PI loop, control loops, setpoints, active airflow, zone states.
#![tactic(auto)]

ghost use Rattle.std.specs.Prelude.{◌≡◌};
ghost use Rattle.f64_helpers.specs.F64.{decimal, zero};
ghost use Rattle.cdl_recurrences.specs.CdlRecurrences.{buildings_line};
ghost use Rattle.cooling_only_controller_conditioning.specs.Conditioning as Conditioning;
ghost use Rattle.cooling_only_controller_conditioning.specs.ConditioningPieces as ConditioningPieces;

use box_choices::Choices;
use cdl_recurrences::{buildings_line, greater_hysteretic, hysteresis, less_hysteretic};
use cooling_only_controller_timing::{
    SamplerState, Step, TimerState, TrueDelayState, UnitDelayState,
};
use f64_helpers::choose;

const SAMPLE_PERIOD: f64 = 120.0;

const TEMPERATURE_HYSTERESIS: f64 = 0.25;

const LOOP_THRESHOLD: f64 = 0.01;

const LOOP_HYSTERESIS: f64 = 0.008;

const CONTROL_DELAY: f64 = 30.0;

const CONTROL_GAIN: f64 = 0.1;

const CONTROL_INTEGRAL_TIME: f64 = 900.0;

const ANTI_WINDUP_NI: f64 = 0.9;

const AREA_BREATHING_FLOW: f64 = 0.006;

const POPULATION_BREATHING_FLOW: f64 = 0.005;

const COOLING_DISTRIBUTION_EFFECTIVENESS: f64 = 1.0;

const HEATING_DISTRIBUTION_EFFECTIVENESS: f64 = 0.8;

// Set by a rising input, held until cleared; the clear wins.
#[repr(C)]
#[derive(Clone, Copy, Default)]
pub struct LatchState {
    pub held: bool,
    pub previous_input: bool,
}

impl LatchState {
    pub fn fresh() -> LatchState
        ensures { result ≡ Conditioning.fresh_latch }
    {
        LatchState::default()
    }

    #[tactic(auto, unfolding(crate::specs::Conditioning::latch))]
    pub fn output(self, input: bool, clear: bool) -> Step<LatchState, bool>
        ensures { result ≡ Conditioning.latch self input clear }
    {
        let output = !clear & ((input & !self.previous_input) | self.held);
        Step {
            state: LatchState {
                held: output,
                previous_input: input,
            },
            output,
        }
    }
}

// Time suppression: after a change of the setpoint, requests wait for a window that grows with the distance between setpoint and zone.
#[derive(Clone, Copy, Default)]
pub struct TimeSuppressionState {
    pub setpoint_sampler: SamplerState,
    pub previous_sample: UnitDelayState,
    pub startup_delay: TrueDelayState,
    pub change_detected: bool,
    pub suppression_latch: LatchState,
    pub passed_latch: LatchState,
    pub timer: TimerState,
    pub previous_active: bool,
    pub previous_passed: bool,
    pub captured_setpoint: f64,
    pub captured_zone: f64,
}

// Whether a setpoint change is seen: the state of the three blocks that look for one, and the answer, which is a memory too; so it is no `Step`.
#[derive(Clone, Copy)]
struct ChangeStep {
    setpoint_sampler: SamplerState,
    previous_sample: UnitDelayState,
    startup_delay: TrueDelayState,
    change_detected: bool,
}

impl TimeSuppressionState {
    pub fn fresh() -> TimeSuppressionState
        ensures { result ≡ Conditioning.fresh_time_suppression }
    {
        TimeSuppressionState::default()
    }

    #[tactic(auto, unfolding(crate::specs::Conditioning::time_suppression, crate::specs::ConditioningPieces::suppression_window))]
    pub fn output(
        self,
        t: f64,
        setpoint_temperature: f64,
        zone_temperature: f64,
    ) -> Step<TimeSuppressionState, bool>
        ensures { result ≡ Conditioning.time_suppression self t setpoint_temperature zone_temperature }
    {
        let change = self.change_detected(t, setpoint_temperature);
        let suppression = self
            .suppression_latch
            .output(change.change_detected, self.previous_passed);
        let active = suppression.output;
        let rising_active = active & !self.previous_active;
        let captured_setpoint = choose(rising_active, setpoint_temperature, self.captured_setpoint);
        let captured_zone = choose(rising_active, zone_temperature, self.captured_zone);
        let suppression_window = suppression_window(captured_setpoint, captured_zone);
        let elapsed = self.timer.elapsed(t, active);
        let passed = elapsed.output > suppression_window;
        let passed_latched = self.passed_latch.output(passed, rising_active);
        Step {
            state: TimeSuppressionState {
                setpoint_sampler: change.setpoint_sampler,
                previous_sample: change.previous_sample,
                startup_delay: change.startup_delay,
                change_detected: change.change_detected,
                suppression_latch: suppression.state,
                passed_latch: passed_latched.state,
                timer: elapsed.state,
                previous_active: active,
                previous_passed: passed,
                captured_setpoint,
                captured_zone,
            },
            output: !active | passed_latched.output,
        }
    }

    // The sampled setpoint against the one a period earlier, once the first period is over.
    #[tactic(auto, using(cooling_only_controller_timing::proofs::Literals::literals), unfolding(crate::specs::Conditioning::time_suppression))]
    fn change_detected(self, t: f64, setpoint_temperature: f64) -> ChangeStep
        ensures { result ≡ ConditioningPieces.change_detected self t setpoint_temperature }
    {
        let sampled_setpoint = self
            .setpoint_sampler
            .sample(t, setpoint_temperature, SAMPLE_PERIOD);
        let prior_sample = self
            .previous_sample
            .sample(t, sampled_setpoint.output, SAMPLE_PERIOD);
        let startup_complete = self.startup_delay.output(t, true, SAMPLE_PERIOD, true);
        let difference = f64_helpers::abs(sampled_setpoint.output - prior_sample.output);
        let change_magnitude = choose(startup_complete.output, difference, 0.0);
        let change_detected = greater_hysteretic(
            change_magnitude,
            TEMPERATURE_HYSTERESIS,
            0.5 * TEMPERATURE_HYSTERESIS,
            self.change_detected,
        )
        .output;
        ChangeStep {
            setpoint_sampler: sampled_setpoint.state,
            previous_sample: prior_sample.state,
            startup_delay: startup_complete.state,
            change_detected,
        }
    }
}

// Seconds for which requests wait: 540 for each kelvin, at most 1800.
#[tactic(auto, using(cooling_only_controller_timing::proofs::Literals::literals), unfolding(crate::specs::ConditioningPieces::suppression_window))]
fn suppression_window(captured_setpoint: f64, captured_zone: f64) -> f64
    ensures { result ≡ ConditioningPieces.suppression_window captured_setpoint captured_zone }
{
    f64_helpers::min(
        540.0 * f64_helpers::abs(captured_setpoint - captured_zone),
        1800.0,
    )
}

// PI loop with anti-windup, whose integrator is reset when the trigger rises.
#[derive(Clone, Copy, Default)]
pub struct LoopPiState {
    pub integrator: f64,
    pub previous_time: Option<f64>,
    pub previous_trigger: bool,
}

impl LoopPiState {
    pub fn fresh() -> LoopPiState
        ensures { result ≡ Conditioning.fresh_loop_pi }
    {
        LoopPiState::default()
    }

    // The output is formed with the old integrator. The damper's PI is written out likewise, as in the Rust: one for both would take gain, time, reset and error besides.
    #[tactic(auto, using(cooling_only_controller_timing::proofs::Literals::literals), unfolding(crate::specs::Conditioning::loop_pi))]
    pub fn output(self, t: f64, error: f64, trigger: bool) -> Step<LoopPiState, f64>
        ensures { result ≡ Conditioning.loop_pi self t error trigger }
    {
        let proportional = CONTROL_GAIN * error;
        let unlimited = proportional + self.integrator;
        let limited = cdl_recurrences::clamp(unlimited, 0.0, 1.0);
        let dt = cooling_only_controller_timing::step_seconds(self.previous_time, t);
        let anti_windup = (unlimited - limited) / (CONTROL_GAIN * ANTI_WINDUP_NI);
        let integrator = choose(
            trigger & !self.previous_trigger,
            -proportional,
            self.integrator + (CONTROL_GAIN / CONTROL_INTEGRAL_TIME) * (error - anti_windup) * dt,
        );
        Step {
            state: LoopPiState {
                integrator,
                previous_time: Some(t),
                previous_trigger: trigger,
            },
            output: limited,
        }
    }
}

// Heating and cooling signals.
#[derive(Clone, Copy)]
pub struct ControlLoopOutput {
    pub cooling: f64,
    pub heating: f64,
}

// The memories of the two loops stand one by one under the Rust's names: as two `LoopState`s the record would no longer read like the Rust, its definition and C's record.
#[derive(Clone, Copy, Default)]
pub struct ControlLoopsState {
    pub cooling_enable: bool,
    pub heating_enable: bool,
    pub cooling_pi: LoopPiState,
    pub heating_pi: LoopPiState,
    pub cooling_near_zero: bool,
    pub heating_near_zero: bool,
    pub cooling_delay: TrueDelayState,
    pub heating_delay: TrueDelayState,
}

// The memories of one of the two loops.
#[derive(Clone, Copy)]
struct LoopState {
    enable: bool,
    pi: LoopPiState,
    near_zero: bool,
    delay: TrueDelayState,
}

impl LoopState {
    // One loop, enabled by below < above, with a dead band of 0.25. The PI runs on every tick, enabled or not, on `above` less `below`; its integrator is reset when the loop becomes enabled.
    // The signal is the PI's output, cut to 0 once that has been near zero for a while and the loop is not enabled.
    #[tactic(auto, using(cooling_only_controller_timing::proofs::Literals::literals), unfolding(crate::specs::ConditioningPieces::control_loop))]
    fn output(self, t: f64, below: f64, above: f64) -> Step<LoopState, f64>
        ensures { result ≡ ConditioningPieces.control_loop self t below above }
    {
        let enable = less_hysteretic(below, above, TEMPERATURE_HYSTERESIS, self.enable).output;
        let raw = self.pi.output(t, above - below, enable);
        let near_zero = less_hysteretic(
            raw.output,
            LOOP_THRESHOLD,
            LOOP_HYSTERESIS,
            self.near_zero,
        ).output;
        let delayed = self.delay.output(t, near_zero, CONTROL_DELAY, false);
        let gate = choose(delayed.output & !enable, 0.0, 1.0);
        Step {
            state: LoopState {
                enable,
                pi: raw.state,
                near_zero,
                delay: delayed.state,
            },
            output: raw.output * gate,
        }
    }
}

impl ControlLoopsState {
    pub fn fresh() -> ControlLoopsState
        ensures { result ≡ Conditioning.fresh_control_loops }
    {
        ControlLoopsState::default()
    }

    #[tactic(auto, unfolding(crate::specs::Conditioning::control_loops, crate::specs::ConditioningPieces::control_loop))]
    pub fn output(
        self,
        t: f64,
        cooling_setpoint: f64,
        zone_temperature: f64,
        heating_setpoint: f64,
    ) -> Step<ControlLoopsState, ControlLoopOutput>
        ensures { result ≡ Conditioning.control_loops self t cooling_setpoint zone_temperature heating_setpoint }
    {
        let cooling = LoopState {
            enable: self.cooling_enable,
            pi: self.cooling_pi,
            near_zero: self.cooling_near_zero,
            delay: self.cooling_delay,
        }
        .output(t, cooling_setpoint, zone_temperature);
        let heating = LoopState {
            enable: self.heating_enable,
            pi: self.heating_pi,
            near_zero: self.heating_near_zero,
            delay: self.heating_delay,
        }
        .output(t, zone_temperature, heating_setpoint);
        Step {
            state: ControlLoopsState {
                cooling_enable: cooling.state.enable,
                heating_enable: heating.state.enable,
                cooling_pi: cooling.state.pi,
                heating_pi: heating.state.pi,
                cooling_near_zero: cooling.state.near_zero,
                heating_near_zero: heating.state.near_zero,
                cooling_delay: cooling.state.delay,
                heating_delay: heating.state.delay,
            },
            output: ControlLoopOutput {
                cooling: cooling.output,
                heating: heating.output,
            },
        }
    }
}

// The mode is a number, as C sends it.
#[derive(Clone, Copy)]
pub struct SetpointInput {
    pub window_status: bool,
    pub occupancy_status: bool,
    pub operating_mode: i64,
    pub co2_setpoint: f64,
    pub co2_concentration: f64,
    pub zone_temperature: f64,
    pub discharge_air_temperature: f64,
}

#[derive(Clone, Copy)]
pub struct SetpointOutput {
    pub adjusted_population_flow: f64,
    pub occupied_minimum_flow: f64,
    pub adjusted_area_flow: f64,
    pub minimum_outdoor_airflow: f64,
}

// Whether the supply cools: the one memory of the ventilation setpoints.
#[repr(C)]
#[derive(Clone, Copy, Default)]
pub struct SetpointsState {
    pub cooling_supply: bool,
}

impl SetpointsState {
    pub fn fresh() -> SetpointsState
        ensures { result ≡ Conditioning.fresh_setpoints }
    {
        SetpointsState::default()
    }

    #[tactic(auto, using(cooling_only_controller_timing::proofs::Literals::literals, f64_helpers::proofs::Integers::equals_literal), unfolding(crate::specs::Conditioning::setpoints))]
    pub fn output(
        self,
        input: SetpointInput,
        choices: Choices,
    ) -> Step<SetpointsState, SetpointOutput>
        ensures { result ≡ Conditioning.setpoints self input choices }
    {
        let cooling_supply = greater_hysteretic(
            input.zone_temperature,
            input.discharge_air_temperature,
            TEMPERATURE_HYSTERESIS,
            self.cooling_supply,
        )
        .output;
        let occupied_mode = input.operating_mode == 1;
        let override_to_zero = !input.window_status | !occupied_mode;
        let co2 = input.co2_setpoint;
        let co2_loop = buildings_line(co2 - 200.0, 0.0, co2, 1.0, input.co2_concentration);
        let corrected_co2 = choose(occupied_mode, co2_loop, 0.0);
        let occupied_minimum = unit_line(
            choices.design_minimum_flow,
            choices.design_cooling_maximum_flow,
            corrected_co2,
        );
        let population = unit_line(0.0, POPULATION_BREATHING_FLOW, corrected_co2);
        let not_occupied = !input.occupancy_status;
        let population = choose(not_occupied, 0.0, population);
        let area = choose(not_occupied, 0.0, AREA_BREATHING_FLOW);
        let occupied_minimum = choose(not_occupied, 0.0, occupied_minimum);
        let population = choose(override_to_zero, 0.0, population);
        let area = choose(override_to_zero, 0.0, area);
        let occupied_minimum = choose(override_to_zero, 0.0, occupied_minimum);
        let distribution_effectiveness = choose(
            cooling_supply,
            COOLING_DISTRIBUTION_EFFECTIVENESS,
            HEATING_DISTRIBUTION_EFFECTIVENESS,
        );
        Step {
            state: SetpointsState { cooling_supply },
            output: SetpointOutput {
                adjusted_population_flow: population,
                occupied_minimum_flow: occupied_minimum,
                adjusted_area_flow: area,
                minimum_outdoor_airflow: (population + area) / distribution_effectiveness,
            },
        }
    }
}

// The line from (0, f1) to (1, f2) at u.
#[tactic(auto, using(cooling_only_controller_timing::proofs::Literals::literals))]
fn unit_line(f1: f64, f2: f64, u: f64) -> f64
    ensures { result ≡ buildings_line zero f1 (decimal 1 1) f2 u }
{
    buildings_line(0.0, f1, 1.0, f2, u)
}

#[derive(Clone, Copy)]
pub struct ActiveAirflowOutput {
    pub cooling_maximum: f64,
    pub minimum: f64,
}

// The flow limits of the operating mode: 1 occupied, 2 and 3 cooldown and setup. The mode is a number, as C sends it: any other is a mode too.
#[tactic(auto, using(f64_helpers::proofs::Integers::i64_kept, f64_helpers::proofs::Integers::equals_literal), unfolding(crate::specs::Conditioning::active_airflow))]
pub fn active_airflow(
    operating_mode: i64,
    occupied_minimum: f64,
    choices: Choices,
) -> ActiveAirflowOutput
    ensures { result ≡ Conditioning.active_airflow operating_mode occupied_minimum choices }
{
    let conditioned = (operating_mode >= 1) & (operating_mode <= 3);
    let cooling_maximum = choose(conditioned, choices.design_cooling_maximum_flow, 0.0);
    let minimum = choose(operating_mode == 1, occupied_minimum, 0.0);
    ActiveAirflowOutput {
        cooling_maximum,
        minimum,
    }
}

#[repr(C)]
#[derive(Clone, Copy, Default)]
pub struct ZoneStatesState {
    pub heating_signal: bool,
    pub cooling_signal: bool,
    pub heating_tiebreak: bool,
}

impl ZoneStatesState {
    pub fn fresh() -> ZoneStatesState
        ensures { result ≡ Conditioning.fresh_zone_states }
    {
        ZoneStatesState::default()
    }

    // 1 heating, 2 deadband, 3 cooling. A number and no enum: the damper takes any i64 for its zone state, and an enum there would ask more of its callers.
    #[tactic(auto, using(f64_helpers::proofs::Integers::i64_kept, cooling_only_controller_timing::proofs::Literals::literals), unfolding(crate::specs::Conditioning::zone_states))]
    pub fn output(self, heating: f64, cooling: f64) -> Step<ZoneStatesState, i64>
        ensures { result ≡ Conditioning.zone_states self heating cooling }
    {
        let heating_signal = hysteresis(heating, 0.01, 0.05, self.heating_signal).output;
        let cooling_signal = hysteresis(cooling, 0.01, 0.05, self.cooling_signal).output;
        let heating_tiebreak = hysteresis(
            heating - cooling,
            -0.01,
            0.01,
            self.heating_tiebreak,
        ).output;
        let is_heating = heating_signal & heating_tiebreak;
        let is_cooling = !is_heating & cooling_signal;
        let output = zone_state(is_heating, is_cooling);
        Step {
            state: ZoneStatesState {
                heating_signal,
                cooling_signal,
                heating_tiebreak,
            },
            output,
        }
    }
}

fn zone_state(is_heating: bool, is_cooling: bool) -> i64
    ensures { result ≡ ConditioningPieces.zone_state is_heating is_cooling }
{
    if is_heating {
        1
    } else if is_cooling {
        3
    } else {
        2
    }
}
