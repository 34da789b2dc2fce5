// One tick over the records, part by part, in the order in which a tick goes through them: each stage takes its part by value,
// and gives the part afterwards beside what it hands on to the next.
ghost use Rattle.std.specs.Prelude.{◌≡◌};
ghost use Rattle.air_box_c.specs.Stages as Stages;

use super::records::{AirflowC, AlarmsC, LastTickC, SystemRequestsC, TimeSuppressionC};
use air_box::{LastTick, Refusal, Tick};
use box_choices::Choices;
use cooling_only_controller::ControllerOutput;
use cooling_only_controller_airflow::{
    AlarmsState, DamperOutput, SystemRequestOutput, SystemRequestsState,
};
use cooling_only_controller_conditioning::{
    ControlLoopOutput, SetpointOutput, TimeSuppressionState,
};
use cooling_only_controller_timing::Step;

// What is handed on: the tick and the box's choices, and then, at each stage, what it knows of those before it. Only the stages look inside.
#[derive(Clone, Copy)]
pub struct TickStart {
    tick: Tick,
    choices: Choices,
}

#[derive(Clone, Copy)]
pub struct AfterSuppression {
    start: TickStart,
    after_suppression: bool,
}

#[derive(Clone, Copy)]
pub struct AfterDampers {
    suppression: AfterSuppression,
    loops: ControlLoopOutput,
    flows: SetpointOutput,
    damper: DamperOutput,
}

#[derive(Clone, Copy)]
pub struct AfterRequests {
    airflow: AfterDampers,
    requests: SystemRequestOutput,
}

#[derive(Clone, Copy)]
pub struct AfterAlarms {
    t: f64,
    kept: LastTick,
    output: ControllerOutput,
}

impl LastTickC {
    // What the stages begin with, or the first question that gets a "no".
    pub fn question(self, tick: Tick) -> Result<TickStart, Refusal>
        ensures { result ≡ Stages.questioned self tick }
    {
        air_box::questions(self.time.into(), tick)?;
        Ok(TickStart {
            tick,
            choices: self.choices,
        })
    }

    pub fn tick(self, done: AfterAlarms) -> Step<LastTickC, ControllerOutput>
        ensures { result ≡ Stages.last_tick self done }
    {
        Step {
            state: LastTickC {
                time: Some(done.t).into(),
                choices: self.choices,
                tick: Some(done.kept).into(),
            },
            output: done.output,
        }
    }
}

impl TimeSuppressionC {
    pub fn tick(self, start: TickStart) -> Step<TimeSuppressionC, AfterSuppression>
        ensures { result ≡ Stages.suppression_tick self start }
    {
        let input = start.tick.input;
        let step = TimeSuppressionState::from(self).output(
            start.tick.t,
            input.cooling_setpoint,
            input.zone_temperature,
        );
        Step {
            state: step.state.into(),
            output: AfterSuppression {
                start,
                after_suppression: step.output,
            },
        }
    }
}

impl AirflowC {
    pub fn tick(self, suppression: AfterSuppression) -> Step<AirflowC, AfterDampers>
        ensures { result ≡ Stages.airflow_tick self suppression }
    {
        let start = suppression.start;
        let steps = cooling_only_controller::airflow_steps(
            start.tick.t,
            start.tick.input,
            start.choices,
            self.control_loops.into(),
            self.setpoints,
            self.zone_states,
            self.dampers.into(),
        );
        Step {
            state: AirflowC::shut(
                steps.loops.state,
                steps.setpoints.state,
                steps.zone.state,
                steps.damper.state,
            ),
            output: AfterDampers {
                suppression,
                loops: steps.loops.output,
                flows: steps.setpoints.output,
                damper: steps.damper.output,
            },
        }
    }
}

impl SystemRequestsC {
    pub fn tick(self, airflow: AfterDampers) -> Step<SystemRequestsC, AfterRequests>
        ensures { result ≡ Stages.requests_tick self airflow }
    {
        let suppression = airflow.suppression;
        let start = suppression.start;
        let wanted = cooling_only_controller::request_input(
            start.tick.input,
            suppression.after_suppression,
            airflow.loops,
            airflow.damper,
        );
        let step = SystemRequestsState::from(self).output(start.tick.t, wanted, start.choices);
        Step {
            state: step.state.into(),
            output: AfterRequests {
                airflow,
                requests: step.output,
            },
        }
    }
}

impl AlarmsC {
    pub fn tick(self, after: AfterRequests) -> Step<AlarmsC, AfterAlarms>
        ensures { result ≡ Stages.alarms_tick self after }
    {
        let airflow = after.airflow;
        let start = airflow.suppression.start;
        let input = cooling_only_controller::alarm_input(start.tick.input, airflow.damper);
        let memories = AlarmsState::from(self);
        let step = memories.output(start.tick.t, input, start.choices);
        Step {
            state: step.state.into(),
            output: AfterAlarms {
                t: start.tick.t,
                kept: air_box::last_tick(
                    memories,
                    start.tick.input,
                    airflow.damper.damper_command,
                    start.choices,
                ),
                output: cooling_only_controller::outputs(
                    airflow.damper,
                    airflow.flows,
                    after.requests,
                    step.output,
                ),
            },
        }
    }
}
