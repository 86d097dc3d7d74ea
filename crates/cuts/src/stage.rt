// One stage of cuts, turn by turn.
ghost use Rattle.std.specs.Prelude.{◌≡◌, ℕ, ◌<◌, map, length, if◌then◌else◌, nat_lt, slice_index};
ghost use Rattle.cuts.specs.StageLaws.{OnlyCuts, OpenCutsLaw};
ghost use Rattle.cuts.specs.Stages.{held, last_step, next_turn, one_less, stage_cut};

use crate::rank::Candidate;

// A candidate is never cut below this.
const LAST: u32 = 1;

// The turn of one candidate: it loses a step, unless it holds no more than its last. A `bool`, since it is the condition of the loop in
// `run_turns`: false, where none is lost, ends the turns, and there is no value to carry.
// The write is by index: after `get_mut` a proof knows the length of the slice alone, and no element.
fn take_turn<C: Candidate>(list: &[C], numbers: &mut [u32], turn: usize) -> bool
    ensures loses { result ≡ nat_lt 1 (slice_index (held (map C.place list.now) numbers.old) turn) }
    ensures numbers { numbers.new ≡ (if result then one_less numbers.old (slice_index (map C.place list.now) turn) else numbers.old) }
{
    let Some(candidate) = list.get(turn) else {
        return false;
    };
    let place = candidate.place();
    match numbers.get(place) {
        Some(number) if *number > LAST => {
            numbers[place] -= 1;
            true
        }
        _ => false,
    }
}

// After the last candidate the first again. Not `(turn + 1) % count`: the rule is read as this choice, and the definition says it so.
fn next_turn(count: usize, turn: usize) -> usize
    requires { turn < count }
    ensures { result ≡ next_turn count turn }
{
    if turn + 1 < count { turn + 1 } else { 0 }
}

// The turns of a stage to its end. A `while`: they go round the list until the gap is met or one cannot lose a step, and a `for` over a
// `cycle()` has no end that the check can see.
pub(crate) fn run_turns<C: Candidate>(list: &[C], numbers: &mut [u32], gap: u64) -> u64
    ensures numbers { numbers.new ≡ (stage_cut last_step (map C.place list.now) numbers.old gap).numbers }
    ensures left { result ≡ (stage_cut last_step (map C.place list.now) numbers.old gap).left }
{
    let mut left = gap;
    let mut turn = 0;
    while left > 0 && take_turn(list, numbers, turn) {
        turn = next_turn(list.len(), turn);
        left -= 1;
    }
    left
}

// A call of its own over the turns: its laws are for callers. Settling runs the turns: what it needs of them is which numbers and which
// gap are left, and their laws are proved of a whole interval.
/// Cuts the numbers of the candidates in `list`, which are in rank order, and answers the gap that is left.
pub fn cut_stage<C: Candidate>(list: &[C], numbers: &mut [u32], gap: u64) -> u64
    ensures numbers { numbers.new ≡ (stage_cut last_step (map C.place list.now) numbers.old gap).numbers }
    ensures left { result ≡ (stage_cut last_step (map C.place list.now) numbers.old gap).left }
    ensures only { OnlyCuts (map C.place list.now) numbers.old gap numbers.new result }
    ensures open_cuts { OpenCutsLaw (map C.place list.now) numbers.old gap result }
{
    run_turns(list, numbers, gap)
}
