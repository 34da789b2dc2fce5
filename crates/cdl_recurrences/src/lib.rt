// The recurrences of cdl_recurrences.rs that the controller calls, in that file's order. Their parameters are the Rust's, one by one and in its order; a record of them would stand between the two. Where the Rust takes slices and `[0]` is read, one value goes in and one comes out.
#![tactic(auto)]

ghost use Rattle.std.specs.Prelude.{◌≡◌, not, T};
ghost use Rattle.f64_helpers.specs.Seconds.{is_time};
ghost use Rattle.cdl_recurrences.specs.CdlRecurrences as Cdl;
ghost use Rattle.cdl_recurrences.specs.CdlPieces as CdlPieces;

// The delay's output, and its timer in seconds.
#[derive(Clone, Copy)]
pub struct TrueDelayOutput {
    pub output: bool,
    pub timer: f64,
}

// A dead-band comparison's answer, and whether its memory decided it: with the other memory the same inputs would have had the other answer.
#[derive(Clone, Copy)]
pub struct DeadBandOutput {
    pub output: bool,
    pub decided_by_memory: bool,
}

// Whether a sample is due, and the index of the sample instant. No Option: the contract promises the index whether a sample is due or not.
#[derive(Clone, Copy)]
pub struct SampleDue {
    pub due: bool,
    pub index: i64,
}

#[tactic(auto, unfolding(crate::specs::CdlRecurrences::buildings_line))]
pub fn buildings_line(x1: f64, f1: f64, x2: f64, f2: f64, u: f64) -> f64
    ensures { result ≡ Cdl.buildings_line x1 f1 x2 f2 u }
{
    let x_lim = clamp(u, x1, x2);
    let slope = (f2 - f1) / (x2 - x1);
    let intercept = f2 - slope * x2;
    intercept + slope * x_lim
}

#[tactic(auto, unfolding(crate::specs::CdlRecurrences::clamp))]
pub fn clamp(value: f64, min: f64, max: f64) -> f64
    ensures { result ≡ Cdl.clamp value min max }
{
    if value < min {
        min
    } else if value > max {
        max
    } else {
        value
    }
}

#[tactic(auto, using(crate::proofs::MemoryDecided::output_by_tests), unfolding(crate::specs::CdlRecurrences::hysteresis))]
pub fn hysteresis(u: f64, u_low: f64, u_high: f64, previous: bool) -> DeadBandOutput
    ensures { result ≡ Cdl.dead_band_output (Cdl.hysteresis u u_low u_high) previous }
{
    dead_band_by_tests(previous, u > u_high, u >= u_low)
}

#[tactic(auto, using(crate::proofs::MemoryDecided::output_by_tests), unfolding(crate::specs::CdlRecurrences::less_hysteretic))]
pub fn less_hysteretic(u1: f64, u2: f64, h: f64, previous: bool) -> DeadBandOutput
    ensures { result ≡ Cdl.dead_band_output (Cdl.less_hysteretic u1 u2 h) previous }
{
    dead_band_by_tests(previous, u1 < u2, u1 < u2 + h)
}

#[tactic(auto, using(crate::proofs::MemoryDecided::output_by_tests), unfolding(crate::specs::CdlRecurrences::greater_hysteretic))]
pub fn greater_hysteretic(u1: f64, u2: f64, h: f64, previous: bool) -> DeadBandOutput
    ensures { result ≡ Cdl.dead_band_output (Cdl.greater_hysteretic u1 u2 h) previous }
{
    dead_band_by_tests(previous, u1 > u2, u1 > u2 - h)
}

// Off goes by the first test, on by the second, so memory decides where the two disagree.
fn dead_band_by_tests(previous: bool, turns_on: bool, stays_on: bool) -> DeadBandOutput
    ensures { result ≡ CdlPieces.dead_band_by_tests previous turns_on stays_on }
{
    DeadBandOutput {
        output: (!previous & turns_on) | (previous & stays_on),
        decided_by_memory: turns_on != stays_on,
    }
}

#[tactic(auto, unfolding(crate::specs::CdlRecurrences::true_delay_output, crate::specs::CdlPieces::true_delay_running))]
pub fn true_delay_output(
    t: f64,
    u: bool,
    delay_time: f64,
    delay_on_init: bool,
    prev_time: Option<f64>,
    prev_u: bool,
    held: bool,
    timer: f64,
) -> TrueDelayOutput
    ensures { result ≡ Cdl.true_delay_output t u delay_time delay_on_init prev_time prev_u held timer }
{
    if u {
        let delay = f64_helpers::max_zero(delay_time);
        match prev_time {
            None => {
                if delay_on_init & (delay > 0.0) {
                    TrueDelayOutput {
                        output: false,
                        timer: 0.0,
                    }
                } else {
                    TrueDelayOutput {
                        output: true,
                        timer: delay,
                    }
                }
            }
            Some(previous_time) => {
                true_delay_running(t, delay, previous_time, prev_u, held, timer)
            }
        }
    } else {
        TrueDelayOutput {
            output: false,
            timer: 0.0,
        }
    }
}

// The delay with its input true, at a tick that is not the first.
#[tactic(auto, unfolding(crate::specs::CdlPieces::true_delay_running))]
fn true_delay_running(
    t: f64,
    delay: f64,
    previous_time: f64,
    prev_u: bool,
    held: bool,
    timer: f64,
) -> TrueDelayOutput
    ensures { result ≡ CdlPieces.true_delay_running t delay previous_time prev_u held timer }
{
    if held {
        TrueDelayOutput {
            output: true,
            timer: delay,
        }
    } else if prev_u {
        let next_timer = timer + f64_helpers::max_zero(t - previous_time);
        TrueDelayOutput {
            output: next_timer >= delay,
            timer: next_timer,
        }
    } else {
        TrueDelayOutput {
            output: delay <= 0.0,
            timer: 0.0,
        }
    }
}

// It stands since the source has it, and has no caller: `SamplerState::sample` asks `sample_due` once, for what it gives and for what it stores.
#[tactic(auto, using(f64_helpers::proofs::Integers::i64_kept), unfolding(crate::specs::CdlRecurrences::sampler_output))]
pub fn sampler_output(
    t: f64,
    input: f64,
    period: f64,
    initialized: bool,
    t0: f64,
    last_index: i64,
    held: f64,
) -> f64
    ensures { result ≡ Cdl.sampler_output t input period initialized t0 last_index held }
{
    if initialized {
        if sample_due(t, t0, period, last_index).due {
            input
        } else {
            held
        }
    } else {
        input
    }
}

#[tactic(auto, unfolding(crate::specs::CdlRecurrences::initial_sample_time))]
pub fn initial_sample_time(t_start: f64, period: f64) -> f64
    ensures { result ≡ Cdl.initial_sample_time t_start period }
{
    buildings_round_six(f64_helpers::floor(t_start / period) * period)
}

// A whole number of seconds in range has no decimals to round: it comes back, and a zero of either sign gives -0.0.
pub fn buildings_round_six(x: f64) -> f64
    ensures { result ≡ Cdl.buildings_round_six x }
{
    if f64_helpers::is_time(x) {
        if x > 0.0 { x } else { -0.0 }
    } else {
        round_six_by_division(x)
    }
}

// Any other number, by the Rust's own steps. The `requires` keeps times away: nothing else here multiplies or divides by 1,000,000.
fn round_six_by_division(x: f64) -> f64
    requires { T (not (is_time x)) }
    ensures { result ≡ Cdl.buildings_round_six x }
{
    if x > 0.0 {
        f64_helpers::floor(x * 1000000.0 + 0.5) / 1000000.0
    } else {
        f64_helpers::ceil(x * 1000000.0 - 0.5) / 1000000.0
    }
}

#[tactic(auto, using(f64_helpers::proofs::Integers::i64_kept), unfolding(crate::specs::CdlRecurrences::sample_index))]
pub fn sample_index(t_now: f64, t0: f64, period: f64) -> i64
    ensures { result ≡ Cdl.sample_index t_now t0 period }
{
    f64_helpers::floor_as_i64((t_now - t0) / period)
}

#[tactic(auto, using(f64_helpers::proofs::Integers::i64_kept), unfolding(crate::specs::CdlRecurrences::sample_due))]
pub fn sample_due(t_now: f64, t0: f64, period: f64, last_index: i64) -> SampleDue
    ensures { result ≡ Cdl.sample_due t_now t0 period last_index }
{
    let index = sample_index(t_now, t0, period);
    SampleDue {
        due: index > last_index,
        index,
    }
}
