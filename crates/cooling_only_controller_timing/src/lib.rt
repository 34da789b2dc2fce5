// The timing blocks of cooling_only_controller_timing.rs: sampler, unit delay, true delay, timer. A state goes in by value and comes back beside the output.
#![tactic(auto)]

ghost use Rattle.std.specs.Prelude.{◌≡◌, if◌then◌else◌};
ghost use Rattle.cooling_only_controller_timing.specs.Timing as Timing;
ghost use Rattle.cooling_only_controller_timing.specs.TimingPieces as TimingPieces;

use f64_helpers::choose;

// What a block or a stage gives at a tick: its state afterwards, and its output.
#[derive(Clone, Copy)]
pub struct Step<S, O> {
    pub state: S,
    pub output: O,
}

// Periodic sampler. `initialized` is a flag beside the three that it speaks of, since C has this record as it stands.
#[repr(C)]
#[derive(Clone, Copy, Default)]
pub struct SamplerState {
    pub initialized: bool,
    pub t0: f64,
    pub last_index: i64,
    pub held: f64,
}

impl SamplerState {
    pub fn fresh() -> SamplerState
        ensures { result ≡ Timing.fresh_sampler }
    {
        SamplerState::default()
    }

    // A sample's being due decides both the output and what is stored, so it is asked once; the state is written out so that no padding is copied.
    #[tactic(auto, using(f64_helpers::proofs::Integers::i64_kept), unfolding(crate::specs::Timing::sampler_sample, cdl_recurrences::specs::CdlRecurrences::sampler_output))]
    pub fn sample(self, t: f64, input: f64, period: f64) -> Step<SamplerState, f64>
        ensures { result ≡ Timing.sampler_sample self t input period }
    {
        if self.initialized {
            let next = cdl_recurrences::sample_due(t, self.t0, period, self.last_index);
            let last_index = choose(next.due, next.index, self.last_index);
            let held = choose(next.due, input, self.held);
            let state = SamplerState {
                initialized: true,
                t0: self.t0,
                last_index,
                held,
            };
            Step {
                state,
                output: held,
            }
        } else {
            let state = sampler_first_sample(t, input, period);
            Step {
                state,
                output: input,
            }
        }
    }
}

// The state of a sampler after its first tick.
#[tactic(auto, using(f64_helpers::proofs::Integers::i64_kept), unfolding(crate::specs::Timing::sampler_sample))]
fn sampler_first_sample(t: f64, input: f64, period: f64) -> SamplerState
    ensures { result ≡ (Timing.sampler_sample Timing.fresh_sampler t input period).state }
{
    let t0 = cdl_recurrences::initial_sample_time(t, period);
    let index = cdl_recurrences::sample_index(t, t0, period);
    SamplerState {
        initialized: true,
        t0,
        last_index: index,
        held: input,
    }
}

// Unit delay of one period: the output that it holds, and the sample staged for the next instant. Its first three fields are the sampler's and stand as theirs do, since C has this record as it stands.
#[repr(C)]
#[derive(Clone, Copy, Default)]
pub struct UnitDelayState {
    pub initialized: bool,
    pub t0: f64,
    pub last_index: i64,
    pub held: f64,
    pub staged: f64,
}

impl UnitDelayState {
    pub fn fresh() -> UnitDelayState
        ensures { result ≡ Timing.fresh_unit_delay }
    {
        UnitDelayState::default()
    }

    #[tactic(auto, using(f64_helpers::proofs::Integers::i64_kept), unfolding(crate::specs::Timing::unit_delay_sample))]
    pub fn sample(self, t: f64, input: f64, period: f64) -> Step<UnitDelayState, f64>
        ensures { result ≡ Timing.unit_delay_sample self t input period }
    {
        if self.initialized {
            let next = cdl_recurrences::sample_due(t, self.t0, period, self.last_index);
            let last_index = choose(next.due, next.index, self.last_index);
            let held = choose(next.due, self.staged, self.held);
            let staged = choose(next.due, input, self.staged);
            let state = UnitDelayState {
                initialized: true,
                t0: self.t0,
                last_index,
                held,
                staged,
            };
            Step {
                state,
                output: held,
            }
        } else {
            let state = self.first_sample(t, input, period);
            Step {
                state,
                output: self.held,
            }
        }
    }

    // The state after the first tick, which is taken as such whatever the flag says.
    #[tactic(auto, using(f64_helpers::proofs::Integers::i64_kept, crate::proofs::Literals::literals), unfolding(crate::specs::Timing::unit_delay_sample))]
    fn first_sample(self, t: f64, input: f64, period: f64) -> UnitDelayState
        ensures { result ≡ TimingPieces.unit_delay_first_sample self t input period }
    {
        let t0 = cdl_recurrences::initial_sample_time(t, period);
        let index = cdl_recurrences::sample_index(t, t0, period);
        let sample_position = (t - t0) / period;
        let offset = f64_helpers::abs(sample_position - std::num::nearest_i64_to_f64(index));
        let staged = if offset <= 1e-9 { input } else { self.staged };
        UnitDelayState {
            initialized: true,
            t0,
            last_index: index,
            held: self.held,
            staged,
        }
    }
}

// True delay.
#[derive(Clone, Copy, Default)]
pub struct TrueDelayState {
    pub previous_time: Option<f64>,
    pub previous_input: bool,
    pub held: bool,
    pub timer: f64,
}

impl TrueDelayState {
    pub fn fresh() -> TrueDelayState
        ensures { result ≡ Timing.fresh_true_delay }
    {
        TrueDelayState::default()
    }

    #[tactic(auto, unfolding(crate::specs::Timing::true_delay))]
    pub fn output(
        self,
        t: f64,
        input: bool,
        delay_time: f64,
        delay_on_init: bool,
    ) -> Step<TrueDelayState, bool>
        ensures { result ≡ Timing.true_delay self t input delay_time delay_on_init }
    {
        let previous_time = self.previous_time;
        let next = cdl_recurrences::true_delay_output(
            t,
            input,
            delay_time,
            delay_on_init,
            previous_time,
            self.previous_input,
            self.held,
            self.timer,
        );
        let state = TrueDelayState {
            previous_time: Some(t),
            previous_input: input,
            held: next.output,
            timer: next.timer,
        };
        Step {
            state,
            output: next.output,
        }
    }
}

// Seconds since the input last rose.
#[derive(Clone, Copy, Default)]
pub struct TimerState {
    pub entry_time: Option<f64>,
    pub previous_input: bool,
}

impl TimerState {
    pub fn fresh() -> TimerState
        ensures { result ≡ Timing.fresh_timer }
    {
        TimerState::default()
    }

    #[tactic(auto, unfolding(crate::specs::Timing::timer_elapsed))]
    pub fn elapsed(self, t: f64, input: bool) -> Step<TimerState, f64>
        ensures { result ≡ Timing.timer_elapsed self t input }
    {
        if input {
            let entry_time = if self.previous_input {
                self.entry_time
            } else {
                Some(t)
            };
            let output = seconds_since(entry_time, t);
            Step {
                state: TimerState {
                    entry_time,
                    previous_input: true,
                },
                output,
            }
        } else {
            Step {
                state: TimerState {
                    entry_time: None,
                    previous_input: false,
                },
                output: 0.0,
            }
        }
    }
}

// How long before t that was; 0.0 where it never was.
fn seconds_since(entry_time: Option<f64>, t: f64) -> f64
    ensures { result ≡ Timing.seconds_since entry_time t }
{
    entry_time.map_or(0.0, |entry| t - entry)
}

// The seconds over which a PI loop integrates: none at its first tick.
pub fn step_seconds(previous_time: Option<f64>, t: f64) -> f64
    ensures { result ≡ Timing.step_seconds previous_time t }
{
    previous_time.map_or(0.0, |previous| f64_helpers::max_zero(t - previous))
}
