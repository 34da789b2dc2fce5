// The whole controller of cooling_only_controller.rs: its records, and `output` in its order of stages.
#![tactic(auto)]

ghost use Rattle.std.specs.Prelude.{◌≡◌};
ghost use Rattle.cooling_only_controller.specs.Controller as Controller;
ghost use Rattle.cooling_only_controller.specs.ControllerPieces as ControllerPieces;

use box_choices::Choices;
use cooling_only_controller_airflow::{
    AlarmInput, AlarmOutput, AlarmsState, DamperInput, DamperOutput, DamperState,
    SystemRequestInput, SystemRequestOutput, SystemRequestsState,
};
use cooling_only_controller_conditioning::{
    ActiveAirflowOutput, ControlLoopOutput, ControlLoopsState, SetpointInput, SetpointOutput,
    SetpointsState, TimeSuppressionState, ZoneStatesState,
};
use cooling_only_controller_timing::Step;

// The mode and the overrides are numbers, and any is one: C has this record as it stands.
#[repr(C)]
#[derive(Clone, Copy)]
pub struct ControllerInput {
    pub zone_temperature: f64,
    pub cooling_setpoint: f64,
    pub heating_setpoint: f64,
    pub window_status: bool,
    pub occupancy_status: bool,
    pub operating_mode: i64,
    pub co2_setpoint: f64,
    pub co2_concentration: f64,
    pub discharge_air_temperature: f64,
    pub supply_air_temperature: f64,
    pub discharge_airflow: f64,
    pub airflow_override_index: i64,
    pub damper_override_index: i64,
    pub supply_fan_status: bool,
}

// The levels are numbers: C has this record as it stands.
#[repr(C)]
#[derive(Clone, Copy)]
pub struct ControllerOutput {
    pub airflow_setpoint: f64,
    pub damper_command: f64,
    pub adjusted_population_flow: f64,
    pub adjusted_area_flow: f64,
    pub minimum_outdoor_airflow: f64,
    pub zone_temperature_reset_request: i64,
    pub zone_pressure_reset_request: i64,
    pub low_airflow_alarm: i64,
    pub airflow_sensor_alarm: i64,
    pub leaking_damper_alarm: i64,
}

#[derive(Clone, Copy, Default)]
pub struct ControllerState {
    pub time_suppression: TimeSuppressionState,
    pub control_loops: ControlLoopsState,
    pub setpoints: SetpointsState,
    pub zone_states: ZoneStatesState,
    pub dampers: DamperState,
    pub system_requests: SystemRequestsState,
    pub alarms: AlarmsState,
}

// What the stages from the control loops to the damper give.
#[derive(Clone, Copy)]
pub struct AirflowSteps {
    pub loops: Step<ControlLoopsState, ControlLoopOutput>,
    pub setpoints: Step<SetpointsState, SetpointOutput>,
    pub zone: Step<ZoneStatesState, i64>,
    pub damper: Step<DamperState, DamperOutput>,
}

impl ControllerState {
    pub fn fresh() -> ControllerState
        ensures { result ≡ Controller.fresh_controller }
    {
        ControllerState::default()
    }

    #[tactic(auto, unfolding(crate::specs::Controller::controller_output, crate::specs::ControllerPieces::airflow_steps))]
    pub fn output(
        self,
        t: f64,
        input: ControllerInput,
        choices: Choices,
    ) -> Step<ControllerState, ControllerOutput>
        ensures { result ≡ Controller.controller_output self t input choices }
    {
        let after_suppression = self
            .time_suppression
            .output(t, input.cooling_setpoint, input.zone_temperature);
        let air = airflow_steps(
            t,
            input,
            choices,
            self.control_loops,
            self.setpoints,
            self.zone_states,
            self.dampers,
        );
        let wanted = request_input(
            input,
            after_suppression.output,
            air.loops.output,
            air.damper.output,
        );
        let requests = self.system_requests.output(t, wanted, choices);
        let alarms = self
            .alarms
            .output(t, alarm_input(input, air.damper.output), choices);
        controller_step(after_suppression, air, requests, alarms)
    }
}

// The stages from the control loops to the damper, each fed by those before it. They take time, input and choices one by one, as each of them does; and their states one by one: the controller has them among others, C in a record of its own.
#[tactic(auto, using(f64_helpers::proofs::Integers::i64_kept), unfolding(crate::specs::ControllerPieces::airflow_steps))]
pub fn airflow_steps(
    t: f64,
    input: ControllerInput,
    choices: Choices,
    control_loops: ControlLoopsState,
    setpoints: SetpointsState,
    zone_states: ZoneStatesState,
    dampers: DamperState,
) -> AirflowSteps
    ensures { result ≡ ControllerPieces.airflow_steps t input choices control_loops setpoints zone_states dampers }
{
    let loops = control_loops.output(
        t,
        input.cooling_setpoint,
        input.zone_temperature,
        input.heating_setpoint,
    );
    let flows = setpoints.output(input.into(), choices);
    let active = cooling_only_controller_conditioning::active_airflow(
        input.operating_mode,
        flows.output.occupied_minimum_flow,
        choices,
    );
    let zone = zone_states.output(loops.output.heating, loops.output.cooling);
    let damper_input = damper_input(input, loops.output, active, zone.output);
    let damper = dampers.output(t, damper_input, choices);
    AirflowSteps {
        loops,
        setpoints: flows,
        zone,
        damper,
    }
}

// The next state and the ten outputs, put together from the stages' steps.
fn controller_step(
    after_suppression: Step<TimeSuppressionState, bool>,
    air: AirflowSteps,
    requests: Step<SystemRequestsState, SystemRequestOutput>,
    alarms: Step<AlarmsState, AlarmOutput>,
) -> Step<ControllerState, ControllerOutput>
    ensures { result ≡ ControllerPieces.controller_step after_suppression air requests alarms }
{
    Step {
        state: ControllerState {
            time_suppression: after_suppression.state,
            control_loops: air.loops.state,
            setpoints: air.setpoints.state,
            zone_states: air.zone.state,
            dampers: air.damper.state,
            system_requests: requests.state,
            alarms: alarms.state,
        },
        output: outputs(
            air.damper.output,
            air.setpoints.output,
            requests.output,
            alarms.output,
        ),
    }
}

// What the ventilation setpoints read of the input.
impl From<ControllerInput> for SetpointInput {
    ghost from_gives = { λ input r. r ≡ ControllerPieces.setpoint_input input };

    fn from(input: ControllerInput) -> SetpointInput {
        SetpointInput {
            window_status: input.window_status,
            occupancy_status: input.occupancy_status,
            operating_mode: input.operating_mode,
            co2_setpoint: input.co2_setpoint,
            co2_concentration: input.co2_concentration,
            zone_temperature: input.zone_temperature,
            discharge_air_temperature: input.discharge_air_temperature,
        }
    }
}

fn damper_input(
    input: ControllerInput,
    loops: ControlLoopOutput,
    active: ActiveAirflowOutput,
    zone_state: i64,
) -> DamperInput
    ensures { result ≡ ControllerPieces.damper_input input loops active zone_state }
{
    DamperInput {
        active_minimum_flow: active.minimum,
        supply_air_temperature: input.supply_air_temperature,
        zone_temperature: input.zone_temperature,
        cooling_loop: loops.cooling,
        active_cooling_maximum_flow: active.cooling_maximum,
        zone_state,
        airflow_override_index: input.airflow_override_index,
        supply_fan_status: input.supply_fan_status,
        discharge_airflow: input.discharge_airflow,
        damper_override_index: input.damper_override_index,
    }
}

pub fn request_input(
    input: ControllerInput,
    after_suppression: bool,
    loops: ControlLoopOutput,
    damper: DamperOutput,
) -> SystemRequestInput
    ensures { result ≡ ControllerPieces.request_input input after_suppression loops damper }
{
    SystemRequestInput {
        after_suppression,
        cooling_setpoint: input.cooling_setpoint,
        zone_temperature: input.zone_temperature,
        cooling_loop: loops.cooling,
        airflow_setpoint: damper.airflow_setpoint,
        discharge_airflow: input.discharge_airflow,
        damper_position: damper.damper_command,
    }
}

pub fn alarm_input(input: ControllerInput, damper: DamperOutput) -> AlarmInput
    ensures { result ≡ ControllerPieces.alarm_input input damper }
{
    AlarmInput {
        discharge_airflow: input.discharge_airflow,
        active_airflow_setpoint: damper.airflow_setpoint,
        supply_fan_status: input.supply_fan_status,
        operation_mode: input.operating_mode,
        damper_position: damper.damper_command,
    }
}

pub fn outputs(
    damper: DamperOutput,
    setpoints: SetpointOutput,
    requests: SystemRequestOutput,
    alarms: AlarmOutput,
) -> ControllerOutput
    ensures { result ≡ ControllerPieces.outputs damper setpoints requests alarms }
{
    ControllerOutput {
        airflow_setpoint: damper.airflow_setpoint,
        damper_command: damper.damper_command,
        adjusted_population_flow: setpoints.adjusted_population_flow,
        adjusted_area_flow: setpoints.adjusted_area_flow,
        minimum_outdoor_airflow: setpoints.minimum_outdoor_airflow,
        zone_temperature_reset_request: requests.temperature,
        zone_pressure_reset_request: requests.pressure,
        low_airflow_alarm: alarms.low_airflow,
        airflow_sensor_alarm: alarms.airflow_sensor,
        leaking_damper_alarm: alarms.leaking_damper,
    }
}
