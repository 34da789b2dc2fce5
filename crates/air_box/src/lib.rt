// The air box: the controller's state, the last accepted time, what was chosen when it was built and what it keeps of its last accepted tick; building; the seven questions asked of a tick; the reasons why there is no alarm; the desk code.
#![tactic(auto)]

ghost use Rattle.std.specs.Prelude.{◌≡◌};
ghost use Rattle.air_box.specs.AirBox as AirBoxes;
ghost use Rattle.air_box.specs.NoAlarm as NoAlarm;

use box_choices::Choices;
use cooling_only_controller::{ControllerInput, ControllerOutput, ControllerState};
use cooling_only_controller_airflow::AlarmsState;
use cooling_only_controller_timing::TrueDelayState;
use std::error::Error;
use std::fmt;

// What a tick carries: its time in seconds, and the readings and settings.
#[repr(C)]
#[derive(Clone, Copy)]
pub struct Tick {
    pub t: f64,
    pub input: ControllerInput,
}

// The start choice, named when a box is built.
#[derive(Clone, Copy, Debug, PartialEq, Eq)]
pub enum Start {
    Plain,
    Quiet,
}

// What a box keeps of its last accepted tick for the reasons why there is no alarm: the mode, the fan, and whether memory decided that flow is high or not, and that the damper is closed or not.
#[derive(Clone, Copy, Debug, PartialEq, Eq)]
pub struct LastTick {
    pub mode: i64,
    pub fan: bool,
    pub flow_by_memory: bool,
    pub damper_by_memory: bool,
}

#[derive(Clone, Copy)]
pub struct AirBox {
    pub state: ControllerState,
    pub last_time: Option<f64>,
    pub choices: Choices,
    pub last_tick: Option<LastTick>,
}

// Why no box is built.
#[derive(Clone, Copy, Debug, PartialEq, Eq)]
pub enum BuildRefusal {
    DesignFlowOutOfRange,
}

// Why a tick is refused: the question that got the first "no".
#[derive(Clone, Copy, Debug, PartialEq, Eq)]
pub enum Refusal {
    NotWholeSeconds,
    TimeOutOfRange,
    BeforeLast,
    TooLongAfterLast,
    TemperatureOutOfRange,
    Co2OutOfRange,
    AirflowOutOfRange,
}

// A tick's answer: the ten outputs, or the refusal.
pub type Answer = Result<ControllerOutput, Refusal>;

// Why an alarm does not stand, after the last accepted tick; or that it stands. `Held`: all that it asks for is there, but not for long enough yet.
#[derive(Clone, Copy, Debug, PartialEq, Eq)]
pub enum NoAlarmReason {
    AlarmStands,
    NoTick,
    NotOccupied,
    FanOn,
    FanOff,
    DamperNotClosed,
    FlowNotHigh,
    Held { seconds_lacking: u16 },
}

// The reason for the airflow sensor alarm, and whether memory decided that flow is high or not.
#[derive(Clone, Copy, Debug, PartialEq, Eq)]
pub struct SensorReason {
    pub reason: NoAlarmReason,
    pub flow_by_memory: bool,
}

// The reason for the leaking damper alarm, and whether memory decided of the damper and of the flow.
#[derive(Clone, Copy, Debug, PartialEq, Eq)]
pub struct LeakReason {
    pub reason: NoAlarmReason,
    pub damper_by_memory: bool,
    pub flow_by_memory: bool,
}

// The box after a tick, and its answer. No `Step`: its `output` would be read as the ten outputs, which an answer has only where the tick is accepted.
#[derive(Clone, Copy)]
pub struct AirBoxStep {
    pub state: AirBox,
    pub answer: Answer,
}

// Document 01's number of the reason.
impl From<Refusal> for u8 {
    ghost from_gives = { λ refusal number. number ≡ AirBoxes.refusal_number refusal };

    fn from(refusal: Refusal) -> u8 {
        match refusal {
            Refusal::NotWholeSeconds => 1,
            Refusal::TimeOutOfRange => 2,
            Refusal::BeforeLast => 3,
            Refusal::TooLongAfterLast => 4,
            Refusal::TemperatureOutOfRange => 5,
            Refusal::Co2OutOfRange => 6,
            Refusal::AirflowOutOfRange => 7,
        }
    }
}

impl fmt::Display for Refusal {
    fn fmt<W: fmt::Write>(&self, f: &mut fmt::Formatter<W>) -> fmt::Result {
        f.write_str(match self {
            Refusal::NotWholeSeconds => "the time is not a whole number of seconds",
            Refusal::TimeOutOfRange => "the time is out of range",
            Refusal::BeforeLast => "the time is before the last accepted one",
            Refusal::TooLongAfterLast => "the time is more than 240 s after the last accepted one",
            Refusal::TemperatureOutOfRange => "a temperature is out of range",
            Refusal::Co2OutOfRange => "a CO2 reading or setpoint is out of range",
            Refusal::AirflowOutOfRange => "the discharge airflow is out of range",
        })
    }
}

impl Error for Refusal {}

// The number of the reason.
impl From<BuildRefusal> for u8 {
    ghost from_gives = { λ refusal number. number ≡ AirBoxes.build_refusal_number refusal };

    fn from(refusal: BuildRefusal) -> u8 {
        match refusal {
            BuildRefusal::DesignFlowOutOfRange => 8,
        }
    }
}

impl fmt::Display for BuildRefusal {
    fn fmt<W: fmt::Write>(&self, f: &mut fmt::Formatter<W>) -> fmt::Result {
        f.write_str(match self {
            BuildRefusal::DesignFlowOutOfRange => "a design flow is out of range",
        })
    }
}

impl Error for BuildRefusal {}

// The number of the reason. None is that of a refusal or a desk code, 0 apart: there nothing is wrong, here the alarm stands.
impl From<NoAlarmReason> for u8 {
    ghost from_gives = { λ reason number. number ≡ NoAlarm.reason_number reason };

    fn from(reason: NoAlarmReason) -> u8 {
        match reason {
            NoAlarmReason::AlarmStands => 0,
            NoAlarmReason::NoTick => 60,
            NoAlarmReason::NotOccupied => 61,
            NoAlarmReason::FanOn => 62,
            NoAlarmReason::FanOff => 63,
            NoAlarmReason::DamperNotClosed => 64,
            NoAlarmReason::FlowNotHigh => 65,
            NoAlarmReason::Held { .. } => 66,
        }
    }
}

impl NoAlarmReason {
    // The seconds that are lacking: of a reason other than `Held`, none.
    pub fn seconds_lacking(self) -> u16
        ensures { result ≡ NoAlarm.reason_seconds self }
    {
        match self {
            NoAlarmReason::Held { seconds_lacking } => seconds_lacking,
            _ => 0,
        }
    }

    pub fn words(self) -> &'static str
        ensures { result.now ≡ NoAlarm.reason_words self }
    {
        match self {
            NoAlarmReason::AlarmStands => "the alarm stands",
            NoAlarmReason::NoTick => "no tick yet",
            NoAlarmReason::NotOccupied => "mode not 1",
            NoAlarmReason::FanOn => "fan on",
            NoAlarmReason::FanOff => "fan off",
            NoAlarmReason::DamperNotClosed => "damper not closed",
            NoAlarmReason::FlowNotHigh => "flow not high",
            NoAlarmReason::Held { .. } => "held",
        }
    }
}

impl fmt::Display for NoAlarmReason {
    fn fmt<W: fmt::Write>(&self, f: &mut fmt::Formatter<W>) -> fmt::Result {
        f.write_str(self.words())
    }
}

impl Start {
    // Whether the true delays of system requests and alarms, all but the fan's arming, run with delay_on_init.
    pub fn delay_on_init(self) -> bool
        ensures { result ≡ AirBoxes.delay_on_init self }
    {
        matches!(self, Start::Quiet)
    }
}

impl AirBox {
    // A box that has had no tick, with the usual design flows and the first reading.
    pub fn fresh(start: Start) -> AirBox
        ensures { result ≡ AirBoxes.fresh_box start }
    {
        unticked(Choices::usual(start.delay_on_init()))
    }

    // A box that has had no tick, with the design flows and the reading that are wanted. What it was built with stays.
    #[tactic(auto, unfolding(crate::specs::AirBox::build))]
    pub fn build(choices: Choices) -> Result<AirBox, BuildRefusal>
        ensures { result ≡ AirBoxes.build choices }
    {
        if design_flows_within(choices) {
            Ok(unticked(choices))
        } else {
            Err(BuildRefusal::DesignFlowOutOfRange)
        }
    }

    // One tick: a refused one gives its reason and leaves the box as it was.
    #[tactic(auto, unfolding(crate::specs::AirBox::tick))]
    pub fn tick(self, tick: Tick) -> AirBoxStep
        ensures { result ≡ AirBoxes.tick self tick }
    {
        match questions(self.last_time, tick) {
            Ok(()) => self.accepted(tick),
            Err(reason) => AirBoxStep {
                state: self,
                answer: Err(reason),
            },
        }
    }

    // What becomes of a tick that no question refuses.
    #[tactic(auto, unfolding(crate::specs::AirBox::accepted_tick))]
    fn accepted(self, tick: Tick) -> AirBoxStep
        ensures { result ≡ AirBoxes.accepted_tick self tick }
    {
        let step = self.state.output(tick.t, tick.input, self.choices);
        AirBoxStep {
            state: AirBox {
                state: step.state,
                last_time: Some(tick.t),
                last_tick: Some(last_tick(
                    self.state.alarms,
                    tick.input,
                    step.output.damper_command,
                    self.choices,
                )),
                ..self
            },
            answer: Ok(step.output),
        }
    }

    // Why there is no airflow sensor alarm.
    pub fn sensor_reason(self) -> SensorReason
        ensures { result ≡ NoAlarm.sensor_reason self.last_tick self.state.alarms }
    {
        sensor_reason(self.last_tick, self.state.alarms)
    }

    // Why there is no leaking damper alarm.
    pub fn leak_reason(self) -> LeakReason
        ensures { result ≡ NoAlarm.leak_reason self.last_tick self.state.alarms }
    {
        leak_reason(self.last_tick, self.state.alarms)
    }
}

// What a box keeps of the tick that it accepts, from the memories that the tick met.
#[tactic(auto, using(f64_helpers::proofs::Integers::i64_kept))]
pub fn last_tick(
    memories: AlarmsState,
    input: ControllerInput,
    damper_command: f64,
    choices: Choices,
) -> LastTick
    ensures { result ≡ AirBoxes.last_tick memories input damper_command choices }
{
    let flow = cooling_only_controller_airflow::flow_high(
        input.discharge_airflow,
        choices,
        memories.flow_high,
    );
    let damper = cooling_only_controller_airflow::damper_closed(
        damper_command,
        memories.damper_closed,
    );
    LastTick {
        mode: input.operating_mode,
        fan: input.supply_fan_status,
        flow_by_memory: flow.decided_by_memory,
        damper_by_memory: damper.decided_by_memory,
    }
}

// The first that is true: no tick, mode not 1, fan on, flow not high, held; else the alarm stands. In the second reading the delay runs on the fan alone, so that what is lacking counts from the fan's last stop.
#[tactic(auto, unfolding(crate::specs::NoAlarm::sensor_reason))]
pub fn sensor_reason(last_tick: Option<LastTick>, alarms: AlarmsState) -> SensorReason
    ensures { result ≡ NoAlarm.sensor_reason last_tick alarms }
{
    match last_tick {
        None => SensorReason {
            reason: NoAlarmReason::NoTick,
            flow_by_memory: false,
        },
        Some(last) => SensorReason {
            reason: no_sensor_alarm(last, alarms),
            flow_by_memory: last.flow_by_memory,
        },
    }
}

// The first that is true: no tick, fan off, damper not closed, flow not high, held; else the alarm stands. The leak's rule asks for no mode.
#[tactic(auto, unfolding(crate::specs::NoAlarm::leak_reason))]
pub fn leak_reason(last_tick: Option<LastTick>, alarms: AlarmsState) -> LeakReason
    ensures { result ≡ NoAlarm.leak_reason last_tick alarms }
{
    match last_tick {
        None => LeakReason {
            reason: NoAlarmReason::NoTick,
            damper_by_memory: false,
            flow_by_memory: false,
        },
        Some(last) => LeakReason {
            reason: no_leak_alarm(last, alarms),
            damper_by_memory: last.damper_by_memory,
            flow_by_memory: last.flow_by_memory,
        },
    }
}

#[tactic(auto, using(f64_helpers::proofs::Integers::equals_literal))]
fn no_sensor_alarm(last: LastTick, alarms: AlarmsState) -> NoAlarmReason
    ensures { result ≡ NoAlarm.no_sensor_alarm last alarms }
{
    if last.mode != 1 {
        NoAlarmReason::NotOccupied
    } else if last.fan {
        NoAlarmReason::FanOn
    } else if !alarms.flow_high {
        NoAlarmReason::FlowNotHigh
    } else {
        held_or_stands(alarms.sensor_delay)
    }
}

fn no_leak_alarm(last: LastTick, alarms: AlarmsState) -> NoAlarmReason
    ensures { result ≡ NoAlarm.no_leak_alarm last alarms }
{
    if !last.fan {
        NoAlarmReason::FanOff
    } else if !alarms.damper_closed {
        NoAlarmReason::DamperNotClosed
    } else if !alarms.flow_high {
        NoAlarmReason::FlowNotHigh
    } else {
        held_or_stands(alarms.leak_delay)
    }
}

// Whether an alarm's delay, of 600 seconds, holds it back still, and what is lacking.
#[tactic(auto, using(cooling_only_controller_timing::proofs::Literals::literals))]
fn held_or_stands(delay: TrueDelayState) -> NoAlarmReason
    ensures { result ≡ NoAlarm.held_or_stands delay }
{
    if delay.held {
        NoAlarmReason::AlarmStands
    } else {
        NoAlarmReason::Held {
            seconds_lacking: std::num::saturating_f64_to_u16(600.0 - delay.timer),
        }
    }
}

fn unticked(choices: Choices) -> AirBox
    ensures { result ≡ AirBoxes.unticked choices }
{
    AirBox {
        state: ControllerState::fresh(),
        last_time: None,
        choices,
        last_tick: None,
    }
}

// Whether a box of these design flows can be built: the cooling maximum from 0.1 to 10.0, and the minimum from 0.0 to that.
#[tactic(auto, using(crate::proofs::Literals::literals))]
fn design_flows_within(choices: Choices) -> bool
    ensures { result ≡ AirBoxes.design_flows_within choices }
{
    let maximum = choices.design_cooling_maximum_flow;
    within(maximum, 0.1, 10.0) & within(choices.design_minimum_flow, 0.0, maximum)
}

// The seven questions, in order: the first "no" is the reason.
#[tactic(auto, using(crate::proofs::Literals::literals), unfolding(crate::specs::AirBox::questions))]
pub fn questions(last_time: Option<f64>, tick: Tick) -> Result<(), Refusal>
    ensures { result ≡ AirBoxes.questions last_time tick }
{
    let t = tick.t;
    let input = tick.input;
    if !f64_helpers::is_whole(t) {
        return Err(Refusal::NotWholeSeconds);
    }
    if !within(t, 0.0, 2147483648.0) {
        return Err(Refusal::TimeOutOfRange);
    }
    if !at_or_after(last_time, t) {
        return Err(Refusal::BeforeLast);
    }
    if !soon_after(last_time, t) {
        return Err(Refusal::TooLongAfterLast);
    }
    if !temperatures_within(input) {
        return Err(Refusal::TemperatureOutOfRange);
    }
    if !(within(input.co2_setpoint, 0.0, 10000.0) & within(input.co2_concentration, 0.0, 10000.0)) {
        return Err(Refusal::Co2OutOfRange);
    }
    if !within(input.discharge_airflow, -10.0, 10.0) {
        return Err(Refusal::AirflowOutOfRange);
    }
    Ok(())
}

// Whether x lies from low to high, the ends included. A NaN does not.
fn within(x: f64, low: f64, high: f64) -> bool
    ensures { result ≡ AirBoxes.within x low high }
{
    (x >= low) & (x <= high)
}

fn at_or_after(last_time: Option<f64>, t: f64) -> bool
    ensures { result ≡ AirBoxes.at_or_after last_time t }
{
    last_time.is_none_or(|last| t >= last)
}

#[tactic(auto, using(crate::proofs::Literals::literals))]
fn soon_after(last_time: Option<f64>, t: f64) -> bool
    ensures { result ≡ AirBoxes.soon_after last_time t }
{
    last_time.is_none_or(|last| t - last <= 240.0)
}

#[tactic(auto, using(crate::proofs::Literals::literals))]
fn temperatures_within(input: ControllerInput) -> bool
    ensures { result ≡ AirBoxes.temperatures_within input }
{
    within(input.zone_temperature, 150.0, 450.0)
        & within(input.cooling_setpoint, 150.0, 450.0)
        & within(input.heating_setpoint, 150.0, 450.0)
        & within(input.discharge_air_temperature, 150.0, 450.0)
        & within(input.supply_air_temperature, 150.0, 450.0)
}

// One number from the three alarms, which are numbers in the output that C reads; so is the code, which the dispatcher reads. By the first rule that fits. The leak comes first: the fitter is wanted at the damper, also where the airflow is low.
#[tactic(auto, unfolding(crate::specs::AirBox::desk_code))]
pub fn desk_code(low_airflow: i64, airflow_sensor: i64, leaking_damper: i64) -> u8
    ensures { result ≡ AirBoxes.desk_code low_airflow airflow_sensor leaking_damper }
{
    match (low_airflow, airflow_sensor, leaking_damper) {
        (_, _, 4) => 34,
        (2, _, _) => 12,
        (3, _, _) => 13,
        (_, 3, _) => 23,
        _ => 0,
    }
}
