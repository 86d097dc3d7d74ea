// The calls of a run.
use crate::dice::Dice;
use crate::history::History;
use engine::call::Call;

// An interval of the day, and once in a while one that it does not have.
fn draw_interval(dice: &mut Dice, count: u32) -> i32 {
    if dice.one_in(16) {
        return match dice.below(3) {
            0 => 0,
            1 => -1,
            _ => count.saturating_add(1).min(101) as i32,
        };
    }
    dice.below(count.clamp(1, 100)) as i32 + 1
}

// The remainder that the interval has by its history, and once in a while another one.
fn draw_steps(dice: &mut Dice, history: &History, interval: i32) -> i32 {
    let steps = history.unbooked(interval).unwrap_or(0);
    match dice.below(12) {
        0 => steps.saturating_add(1),
        1 => steps.saturating_neg(),
        _ => steps,
    }
}

// Any call at all.
fn draw_any(dice: &mut Dice, history: &History, interval: i32) -> Call {
    match dice.below(5) {
        0 => Call::Settle { interval },
        1 => Call::Book {
            interval,
            steps: draw_steps(dice, history, interval),
        },
        2 => Call::Note {
            interval,
            steps: draw_steps(dice, history, interval),
        },
        3 => Call::TakeUp { interval },
        _ => Call::Void { interval },
    }
}

// A call that may well be accepted, by the history.
fn draw_likely(dice: &mut Dice, history: &History, interval: i32) -> Call {
    let Some(steps) = history.unbooked(interval) else {
        return if history.is_settled(interval) {
            Call::Void { interval }
        } else {
            Call::Settle { interval }
        };
    };
    match dice.below(3) {
        0 => Call::Book { interval, steps },
        1 => Call::Note { interval, steps },
        _ => Call::TakeUp { interval },
    }
}

/// The next call of a run on a day of so many intervals; once in a while it is the last one again.
pub(crate) fn draw_call(
    dice: &mut Dice,
    count: u32,
    history: &History,
    last: Option<Call>,
) -> Call {
    if let Some(call) = last
        && dice.one_in(10)
    {
        return call;
    }
    let interval = draw_interval(dice, count);
    if dice.one_in(3) {
        draw_any(dice, history, interval)
    } else {
        draw_likely(dice, history, interval)
    }
}
