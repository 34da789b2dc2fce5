// The records of the C interface: one for each stage record that holds a time and one for each reason why there is no alarm, since an exported signature takes no Option and no other enum, nor a record with a type parameter that would leave it open, and the box as a record of them.
// A record converts into the state that it stands for (`open` in the definitions), and a state into its record (`shut`).
ghost use Rattle.std.specs.Prelude.{◌≡◌};
ghost use Rattle.air_box_c.specs.Records as Records;

use air_box::{LastTick, LeakReason, SensorReason};
use box_choices::Choices;
use cooling_only_controller::ControllerState;
use cooling_only_controller_airflow::{AlarmsState, DamperState, SystemRequestsState};
use cooling_only_controller_conditioning::{
    ControlLoopsState, LatchState, LoopPiState, SetpointsState, TimeSuppressionState,
    ZoneStatesState,
};
use cooling_only_controller_timing::{SamplerState, TimerState, TrueDelayState, UnitDelayState};

// `Option<f64>`, of a time: whether there is a time, and the time. Where there is none, `time` has no meaning.
#[repr(C)]
#[derive(Clone, Copy)]
pub struct OptionalTimeC {
    pub present: bool,
    pub time: f64,
}

impl From<OptionalTimeC> for Option<f64> {
    ghost from_gives = { λ c s. s ≡ Records.open_time c };

    #[tactic(auto, unfolding(crate::specs::Records::open_time))]
    fn from(c: OptionalTimeC) -> Option<f64> {
        c.present.then_some(c.time)
    }
}

impl From<Option<f64>> for OptionalTimeC {
    ghost from_gives = { λ s c. c ≡ Records.shut_time s };

    fn from(s: Option<f64>) -> OptionalTimeC {
        OptionalTimeC {
            present: s.is_some(),
            time: s.unwrap_or(0.0),
        }
    }
}

// `TrueDelayState`.
#[repr(C)]
#[derive(Clone, Copy)]
pub struct TrueDelayC {
    pub previous_time: OptionalTimeC,
    pub previous_input: bool,
    pub held: bool,
    pub timer: f64,
}

impl From<TrueDelayC> for TrueDelayState {
    ghost from_gives = { λ c s. s ≡ Records.open_true_delay c };

    #[tactic(auto, unfolding(crate::specs::Records::open_true_delay))]
    fn from(c: TrueDelayC) -> TrueDelayState {
        TrueDelayState {
            previous_time: c.previous_time.into(),
            previous_input: c.previous_input,
            held: c.held,
            timer: c.timer,
        }
    }
}

impl From<TrueDelayState> for TrueDelayC {
    ghost from_gives = { λ s c. c ≡ Records.shut_true_delay s };

    #[tactic(auto, unfolding(crate::specs::Records::shut_true_delay))]
    fn from(s: TrueDelayState) -> TrueDelayC {
        TrueDelayC {
            previous_time: s.previous_time.into(),
            previous_input: s.previous_input,
            held: s.held,
            timer: s.timer,
        }
    }
}

// `TimerState`.
#[repr(C)]
#[derive(Clone, Copy)]
pub struct TimerC {
    pub entry_time: OptionalTimeC,
    pub previous_input: bool,
}

impl From<TimerC> for TimerState {
    ghost from_gives = { λ c s. s ≡ Records.open_timer c };

    #[tactic(auto, unfolding(crate::specs::Records::open_timer))]
    fn from(c: TimerC) -> TimerState {
        TimerState {
            entry_time: c.entry_time.into(),
            previous_input: c.previous_input,
        }
    }
}

impl From<TimerState> for TimerC {
    ghost from_gives = { λ s c. c ≡ Records.shut_timer s };

    #[tactic(auto, unfolding(crate::specs::Records::shut_timer))]
    fn from(s: TimerState) -> TimerC {
        TimerC {
            entry_time: s.entry_time.into(),
            previous_input: s.previous_input,
        }
    }
}

// `TimeSuppressionState`.
#[repr(C)]
#[derive(Clone, Copy)]
pub struct TimeSuppressionC {
    pub setpoint_sampler: SamplerState,
    pub previous_sample: UnitDelayState,
    pub startup_delay: TrueDelayC,
    pub change_detected: bool,
    pub suppression_latch: LatchState,
    pub passed_latch: LatchState,
    pub timer: TimerC,
    pub previous_active: bool,
    pub previous_passed: bool,
    pub captured_setpoint: f64,
    pub captured_zone: f64,
}

impl From<TimeSuppressionC> for TimeSuppressionState {
    ghost from_gives = { λ c s. s ≡ Records.open_time_suppression c };

    #[tactic(auto, unfolding(crate::specs::Records::open_time_suppression))]
    fn from(c: TimeSuppressionC) -> TimeSuppressionState {
        TimeSuppressionState {
            setpoint_sampler: c.setpoint_sampler,
            previous_sample: c.previous_sample,
            startup_delay: c.startup_delay.into(),
            change_detected: c.change_detected,
            suppression_latch: c.suppression_latch,
            passed_latch: c.passed_latch,
            timer: c.timer.into(),
            previous_active: c.previous_active,
            previous_passed: c.previous_passed,
            captured_setpoint: c.captured_setpoint,
            captured_zone: c.captured_zone,
        }
    }
}

impl From<TimeSuppressionState> for TimeSuppressionC {
    ghost from_gives = { λ s c. c ≡ Records.shut_time_suppression s };

    #[tactic(auto, unfolding(crate::specs::Records::shut_time_suppression))]
    fn from(s: TimeSuppressionState) -> TimeSuppressionC {
        TimeSuppressionC {
            setpoint_sampler: s.setpoint_sampler,
            previous_sample: s.previous_sample,
            startup_delay: s.startup_delay.into(),
            change_detected: s.change_detected,
            suppression_latch: s.suppression_latch,
            passed_latch: s.passed_latch,
            timer: s.timer.into(),
            previous_active: s.previous_active,
            previous_passed: s.previous_passed,
            captured_setpoint: s.captured_setpoint,
            captured_zone: s.captured_zone,
        }
    }
}

// `LoopPiState`.
#[repr(C)]
#[derive(Clone, Copy)]
pub struct LoopPiC {
    pub integrator: f64,
    pub previous_time: OptionalTimeC,
    pub previous_trigger: bool,
}

impl From<LoopPiC> for LoopPiState {
    ghost from_gives = { λ c s. s ≡ Records.open_loop_pi c };

    #[tactic(auto, unfolding(crate::specs::Records::open_loop_pi))]
    fn from(c: LoopPiC) -> LoopPiState {
        LoopPiState {
            integrator: c.integrator,
            previous_time: c.previous_time.into(),
            previous_trigger: c.previous_trigger,
        }
    }
}

impl From<LoopPiState> for LoopPiC {
    ghost from_gives = { λ s c. c ≡ Records.shut_loop_pi s };

    #[tactic(auto, unfolding(crate::specs::Records::shut_loop_pi))]
    fn from(s: LoopPiState) -> LoopPiC {
        LoopPiC {
            integrator: s.integrator,
            previous_time: s.previous_time.into(),
            previous_trigger: s.previous_trigger,
        }
    }
}

// `ControlLoopsState`.
#[repr(C)]
#[derive(Clone, Copy)]
pub struct ControlLoopsC {
    pub cooling_enable: bool,
    pub heating_enable: bool,
    pub cooling_pi: LoopPiC,
    pub heating_pi: LoopPiC,
    pub cooling_near_zero: bool,
    pub heating_near_zero: bool,
    pub cooling_delay: TrueDelayC,
    pub heating_delay: TrueDelayC,
}

impl From<ControlLoopsC> for ControlLoopsState {
    ghost from_gives = { λ c s. s ≡ Records.open_control_loops c };

    #[tactic(auto, unfolding(crate::specs::Records::open_control_loops))]
    fn from(c: ControlLoopsC) -> ControlLoopsState {
        ControlLoopsState {
            cooling_enable: c.cooling_enable,
            heating_enable: c.heating_enable,
            cooling_pi: c.cooling_pi.into(),
            heating_pi: c.heating_pi.into(),
            cooling_near_zero: c.cooling_near_zero,
            heating_near_zero: c.heating_near_zero,
            cooling_delay: c.cooling_delay.into(),
            heating_delay: c.heating_delay.into(),
        }
    }
}

impl From<ControlLoopsState> for ControlLoopsC {
    ghost from_gives = { λ s c. c ≡ Records.shut_control_loops s };

    #[tactic(auto, unfolding(crate::specs::Records::shut_control_loops))]
    fn from(s: ControlLoopsState) -> ControlLoopsC {
        ControlLoopsC {
            cooling_enable: s.cooling_enable,
            heating_enable: s.heating_enable,
            cooling_pi: s.cooling_pi.into(),
            heating_pi: s.heating_pi.into(),
            cooling_near_zero: s.cooling_near_zero,
            heating_near_zero: s.heating_near_zero,
            cooling_delay: s.cooling_delay.into(),
            heating_delay: s.heating_delay.into(),
        }
    }
}

// `DamperState`.
#[repr(C)]
#[derive(Clone, Copy)]
pub struct DamperC {
    pub supply_warm: bool,
    pub integrator: f64,
    pub previous_time: OptionalTimeC,
    pub previous_fan: bool,
}

impl From<DamperC> for DamperState {
    ghost from_gives = { λ c s. s ≡ Records.open_damper c };

    #[tactic(auto, unfolding(crate::specs::Records::open_damper))]
    fn from(c: DamperC) -> DamperState {
        DamperState {
            supply_warm: c.supply_warm,
            integrator: c.integrator,
            previous_time: c.previous_time.into(),
            previous_fan: c.previous_fan,
        }
    }
}

impl From<DamperState> for DamperC {
    ghost from_gives = { λ s c. c ≡ Records.shut_damper s };

    #[tactic(auto, unfolding(crate::specs::Records::shut_damper))]
    fn from(s: DamperState) -> DamperC {
        DamperC {
            supply_warm: s.supply_warm,
            integrator: s.integrator,
            previous_time: s.previous_time.into(),
            previous_fan: s.previous_fan,
        }
    }
}

// `SystemRequestsState`.
#[repr(C)]
#[derive(Clone, Copy)]
pub struct SystemRequestsC {
    pub hot_three: bool,
    pub hot_two: bool,
    pub hot_three_delay: TrueDelayC,
    pub hot_two_delay: TrueDelayC,
    pub cooling_sampler: SamplerState,
    pub setpoint_sampler: SamplerState,
    pub discharge_sampler: SamplerState,
    pub damper_sampler: SamplerState,
    pub cooling_high: bool,
    pub setpoint_on: bool,
    pub damper_high: bool,
    pub damper_delay: TrueDelayC,
    pub starved_half: bool,
    pub starved_seventy: bool,
}

impl From<SystemRequestsC> for SystemRequestsState {
    ghost from_gives = { λ c s. s ≡ Records.open_system_requests c };

    #[tactic(auto, unfolding(crate::specs::Records::open_system_requests))]
    fn from(c: SystemRequestsC) -> SystemRequestsState {
        SystemRequestsState {
            hot_three: c.hot_three,
            hot_two: c.hot_two,
            hot_three_delay: c.hot_three_delay.into(),
            hot_two_delay: c.hot_two_delay.into(),
            cooling_sampler: c.cooling_sampler,
            setpoint_sampler: c.setpoint_sampler,
            discharge_sampler: c.discharge_sampler,
            damper_sampler: c.damper_sampler,
            cooling_high: c.cooling_high,
            setpoint_on: c.setpoint_on,
            damper_high: c.damper_high,
            damper_delay: c.damper_delay.into(),
            starved_half: c.starved_half,
            starved_seventy: c.starved_seventy,
        }
    }
}

impl From<SystemRequestsState> for SystemRequestsC {
    ghost from_gives = { λ s c. c ≡ Records.shut_system_requests s };

    #[tactic(auto, unfolding(crate::specs::Records::shut_system_requests))]
    fn from(s: SystemRequestsState) -> SystemRequestsC {
        SystemRequestsC {
            hot_three: s.hot_three,
            hot_two: s.hot_two,
            hot_three_delay: s.hot_three_delay.into(),
            hot_two_delay: s.hot_two_delay.into(),
            cooling_sampler: s.cooling_sampler,
            setpoint_sampler: s.setpoint_sampler,
            discharge_sampler: s.discharge_sampler,
            damper_sampler: s.damper_sampler,
            cooling_high: s.cooling_high,
            setpoint_on: s.setpoint_on,
            damper_high: s.damper_high,
            damper_delay: s.damper_delay.into(),
            starved_half: s.starved_half,
            starved_seventy: s.starved_seventy,
        }
    }
}

// `AlarmsState`.
#[repr(C)]
#[derive(Clone, Copy)]
pub struct AlarmsC {
    pub fan_armed: TrueDelayC,
    pub setpoint_nonzero: bool,
    pub setpoint_on: TrueDelayC,
    pub low_half: bool,
    pub low_seventy: bool,
    pub low_half_delay: TrueDelayC,
    pub low_seventy_delay: TrueDelayC,
    pub flow_high: bool,
    pub sensor_delay: TrueDelayC,
    pub damper_closed: bool,
    pub leak_delay: TrueDelayC,
}

impl From<AlarmsC> for AlarmsState {
    ghost from_gives = { λ c s. s ≡ Records.open_alarms c };

    #[tactic(auto, unfolding(crate::specs::Records::open_alarms))]
    fn from(c: AlarmsC) -> AlarmsState {
        AlarmsState {
            fan_armed: c.fan_armed.into(),
            setpoint_nonzero: c.setpoint_nonzero,
            setpoint_on: c.setpoint_on.into(),
            low_half: c.low_half,
            low_seventy: c.low_seventy,
            low_half_delay: c.low_half_delay.into(),
            low_seventy_delay: c.low_seventy_delay.into(),
            flow_high: c.flow_high,
            sensor_delay: c.sensor_delay.into(),
            damper_closed: c.damper_closed,
            leak_delay: c.leak_delay.into(),
        }
    }
}

impl From<AlarmsState> for AlarmsC {
    ghost from_gives = { λ s c. c ≡ Records.shut_alarms s };

    #[tactic(auto, unfolding(crate::specs::Records::shut_alarms))]
    fn from(s: AlarmsState) -> AlarmsC {
        AlarmsC {
            fan_armed: s.fan_armed.into(),
            setpoint_nonzero: s.setpoint_nonzero,
            setpoint_on: s.setpoint_on.into(),
            low_half: s.low_half,
            low_seventy: s.low_seventy,
            low_half_delay: s.low_half_delay.into(),
            low_seventy_delay: s.low_seventy_delay.into(),
            flow_high: s.flow_high,
            sensor_delay: s.sensor_delay.into(),
            damper_closed: s.damper_closed,
            leak_delay: s.leak_delay.into(),
        }
    }
}

// The states from the control loops to the damper, which one call of the controller runs. `shut` is no `From`: the controller has no record of these four.
#[repr(C)]
#[derive(Clone, Copy)]
pub struct AirflowC {
    pub control_loops: ControlLoopsC,
    pub setpoints: SetpointsState,
    pub zone_states: ZoneStatesState,
    pub dampers: DamperC,
}

impl AirflowC {
    pub fn shut(
        loops: ControlLoopsState,
        setpoints: SetpointsState,
        zone_states: ZoneStatesState,
        damper: DamperState,
    ) -> AirflowC
        ensures { result ≡ Records.shut_airflow loops setpoints zone_states damper }
    {
        AirflowC {
            control_loops: loops.into(),
            setpoints,
            zone_states,
            dampers: damper.into(),
        }
    }
}

// `Option<LastTick>`: whether a tick was accepted, and what the box keeps of the last one. Where none was, all but `present` has no meaning.
#[repr(C)]
#[derive(Clone, Copy)]
pub struct OptionalLastTickC {
    pub present: bool,
    pub fan: bool,
    pub flow_by_memory: bool,
    pub damper_by_memory: bool,
    pub mode: i64,
}

impl From<OptionalLastTickC> for Option<LastTick> {
    ghost from_gives = { λ c s. s ≡ Records.open_last_tick c };

    #[tactic(auto, unfolding(crate::specs::Records::open_last_tick))]
    fn from(c: OptionalLastTickC) -> Option<LastTick> {
        c.present.then_some(LastTick {
            mode: c.mode,
            fan: c.fan,
            flow_by_memory: c.flow_by_memory,
            damper_by_memory: c.damper_by_memory,
        })
    }
}

impl From<Option<LastTick>> for OptionalLastTickC {
    ghost from_gives = { λ s c. c ≡ Records.shut_last_tick s };

    fn from(s: Option<LastTick>) -> OptionalLastTickC {
        match s {
            None => OptionalLastTickC {
                present: false,
                fan: false,
                flow_by_memory: false,
                damper_by_memory: false,
                mode: 0,
            },
            Some(last) => OptionalLastTickC {
                present: true,
                fan: last.fan,
                flow_by_memory: last.flow_by_memory,
                damper_by_memory: last.damper_by_memory,
                mode: last.mode,
            },
        }
    }
}

// Beside the state: the time of the last accepted tick, what was chosen when the box was built, and what it keeps of that tick.
#[repr(C)]
#[derive(Clone, Copy)]
pub struct LastTickC {
    pub time: OptionalTimeC,
    pub choices: Choices,
    pub tick: OptionalLastTickC,
}

// `AirBox`. The stages stand in the order in which a tick goes through them.
#[repr(C)]
#[derive(Clone, Copy)]
pub struct AirBoxC {
    pub time_suppression: TimeSuppressionC,
    pub airflow: AirflowC,
    pub system_requests: SystemRequestsC,
    pub alarms: AlarmsC,
    pub last: LastTickC,
}

impl AirBoxC {
    // The record of a box that has had no tick.
    pub fn fresh(choices: Choices) -> AirBoxC
        ensures { result ≡ Records.fresh_record choices }
    {
        let s = ControllerState::fresh();
        AirBoxC {
            time_suppression: s.time_suppression.into(),
            airflow: AirflowC::shut(s.control_loops, s.setpoints, s.zone_states, s.dampers),
            system_requests: s.system_requests.into(),
            alarms: s.alarms.into(),
            last: LastTickC {
                time: None.into(),
                choices,
                tick: None.into(),
            },
        }
    }
}

// `SensorReason`: the reason by its number, and the seconds beside it.
#[repr(C)]
#[derive(Clone, Copy)]
pub struct SensorReasonC {
    pub reason: u8,
    pub seconds_lacking: u16,
    pub flow_by_memory: bool,
}

impl From<SensorReason> for SensorReasonC {
    ghost from_gives = { λ s c. c ≡ Records.shut_sensor_reason s };

    fn from(s: SensorReason) -> SensorReasonC {
        SensorReasonC {
            reason: s.reason.into(),
            seconds_lacking: s.reason.seconds_lacking(),
            flow_by_memory: s.flow_by_memory,
        }
    }
}

// `LeakReason`, likewise.
#[repr(C)]
#[derive(Clone, Copy)]
pub struct LeakReasonC {
    pub reason: u8,
    pub seconds_lacking: u16,
    pub damper_by_memory: bool,
    pub flow_by_memory: bool,
}

impl From<LeakReason> for LeakReasonC {
    ghost from_gives = { λ s c. c ≡ Records.shut_leak_reason s };

    fn from(s: LeakReason) -> LeakReasonC {
        LeakReasonC {
            reason: s.reason.into(),
            seconds_lacking: s.reason.seconds_lacking(),
            damper_by_memory: s.damper_by_memory,
            flow_by_memory: s.flow_by_memory,
        }
    }
}
