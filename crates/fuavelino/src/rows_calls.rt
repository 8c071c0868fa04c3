// Rows as they arrive, for other languages. A state is three lent arrays: its six numbers, the places of its kernel, and its three sums.
// They are written where the answer is 0, and as they were otherwise.
ghost use Rattle.std.specs.Prelude.{◌≡◌, true, false, ◌≤◌, ltb};
ghost use Rattle.refusal.specs.First.{answer_number, by_refusal};
ghost use Rattle.plane.specs.Limits.{most_depth};
ghost use Rattle.plane.specs.Plane.{size_of, at};
ghost use Rattle.rowfed.specs.Begin.{begin_of, scratch_begun};
ghost use Rattle.rowfed.specs.Finish.{finish_of, scratch_finished};
ghost use Rattle.fuavelino.specs.Rows.{state_in, lent_state, fed_to, state_by, left_by, numbers_of, sums_of, numbers_written, kernel_written, sums_written};
ghost use Rattle.fuavelino.specs.Ssim.{ssim_written, cs_written};

use crate::plane_of;
use crate::ssim_calls::put_pair;
use plane::Format;
use refusal::Refusal;
use rowfed::State;
use ssim::Totals;

// A depth that no sample has: the state is impossible, and the number may not even fit the state's own.
fn too_deep(numbers: [u64; 6]) -> bool
    ensures { result ≡ ltb (most_depth true) (at numbers 2) }
{
    (plane::DEPTH_LIMIT as u64) < numbers[2]
}

// The state that stands in three arrays.
fn lent_state(numbers: [u64; 6], held: [u16; 255], sums: [f64; 3]) -> State
    requires { at numbers 2 ≤ most_depth true }
    ensures { result ≡ state_in numbers held sums }
{
    let sums = Totals {
        ssim: sums[0],
        cs: sums[1],
        ssimw: sums[2],
    };
    State {
        width: numbers[0] as usize,
        height: numbers[1] as usize,
        depth: numbers[2] as u32,
        taps: numbers[3] as usize,
        kernel: held,
        rows: numbers[4] as usize,
        scored: numbers[5] as usize,
        sums,
    }
}

// A state to the numbers and the sums.
fn put_counts(state: &State, numbers: &mut [u64; 6], sums: &mut [f64; 3])
    ensures numbers_after { numbers.new ≡ numbers_of state.now }
    ensures sums_after { sums.new ≡ sums_of state.now }
{
    *numbers = [
        state.width as u64,
        state.height as u64,
        state.depth as u64,
        state.taps as u64,
        state.rows as u64,
        state.scored as u64,
    ];
    *sums = [state.sums.ssim, state.sums.cs, state.sums.ssimw];
}

// Writes the state of an accepted begin: 0, or the number of the refusal.
fn put_state(
    answer: Result<State, Refusal>,
    numbers: &mut [u64; 6],
    held: &mut [u16; 255],
    sums: &mut [f64; 3],
) -> u8
    ensures value { result ≡ answer_number answer }
    ensures numbers_after { numbers.new ≡ numbers_written answer numbers.old }
    ensures held_after { held.new ≡ kernel_written answer held.old }
    ensures sums_after { sums.new ≡ sums_written answer sums.old }
{
    match answer {
        Ok(state) => {
            put_counts(&state, numbers, sums);
            *held = state.kernel;
            0
        }
        Err(no) => no.number(),
    }
}

// Planes of bytes whose rows will come: 0, or the lowest of 1 2 7 8.
#[unsafe(no_mangle)]
pub extern "C" fn fuavelino_rows_begin8(
    width: usize,
    height: usize,
    depth: u32,
    kernel: &[u16],
    scratch: &mut [i64],
    numbers: &mut [u64; 6],
    held: &mut [u16; 255],
    sums: &mut [f64; 3],
) -> u8
    ensures value { result ≡ answer_number (begin_of (size_of false width height depth) kernel.now scratch.old) }
    ensures scratch_after { scratch.new ≡ scratch_begun (size_of false width height depth) kernel.now scratch.old }
    ensures numbers_after { numbers.new ≡ numbers_written (begin_of (size_of false width height depth) kernel.now scratch.old)
        numbers.old }
    ensures held_after { held.new ≡ kernel_written (begin_of (size_of false width height depth) kernel.now scratch.old)
        held.old }
    ensures sums_after { sums.new ≡ sums_written (begin_of (size_of false width height depth) kernel.now scratch.old)
        sums.old }
{
    let format = Format {
        width,
        height,
        depth,
    };
    let answer = rowfed::begin::<u8>(format, kernel, scratch);
    put_state(answer, numbers, held, sums)
}

// The same of words.
#[unsafe(no_mangle)]
pub extern "C" fn fuavelino_rows_begin16(
    width: usize,
    height: usize,
    depth: u32,
    kernel: &[u16],
    scratch: &mut [i64],
    numbers: &mut [u64; 6],
    held: &mut [u16; 255],
    sums: &mut [f64; 3],
) -> u8
    ensures value { result ≡ answer_number (begin_of (size_of true width height depth) kernel.now scratch.old) }
    ensures scratch_after { scratch.new ≡ scratch_begun (size_of true width height depth) kernel.now scratch.old }
    ensures numbers_after { numbers.new ≡ numbers_written (begin_of (size_of true width height depth) kernel.now scratch.old)
        numbers.old }
    ensures held_after { held.new ≡ kernel_written (begin_of (size_of true width height depth) kernel.now scratch.old)
        held.old }
    ensures sums_after { sums.new ≡ sums_written (begin_of (size_of true width height depth) kernel.now scratch.old)
        sums.old }
{
    let format = Format {
        width,
        height,
        depth,
    };
    let answer = rowfed::begin::<u16>(format, kernel, scratch);
    put_state(answer, numbers, held, sums)
}

// The next rows of both planes, bytes: 0; or 15 where the state is impossible, else the lowest of 4 5 6 8 15.
#[unsafe(no_mangle)]
pub extern "C" fn fuavelino_rows_feed8(
    a: &[u8],
    b: &[u8],
    stride_a: usize,
    stride_b: usize,
    rows: usize,
    scratch: &mut [i64],
    numbers: &mut [u64; 6],
    held: &[u16; 255],
    sums: &mut [f64; 3],
) -> u8
    ensures value { result ≡ answer_number (fed_to false (lent_state numbers.old held.now sums.old)
        a.entry b.entry stride_a stride_b rows scratch.old) }
    ensures scratch_after { scratch.new ≡ left_by false (lent_state numbers.old held.now sums.old)
        a.entry b.entry stride_a stride_b rows scratch.old }
    ensures numbers_after { numbers.new ≡ by_refusal (fed_to false (lent_state numbers.old held.now sums.old)
        a.entry b.entry stride_a stride_b rows scratch.old)
        (numbers_of (state_by false (lent_state numbers.old held.now sums.old) a.entry b.entry stride_a stride_b rows scratch.old))
        numbers.old }
    ensures sums_after { sums.new ≡ by_refusal (fed_to false (lent_state numbers.old held.now sums.old)
        a.entry b.entry stride_a stride_b rows scratch.old)
        (sums_of (state_by false (lent_state numbers.old held.now sums.old) a.entry b.entry stride_a stride_b rows scratch.old))
        sums.old }
{
    let n = *numbers;
    if too_deep(n) {
        return Refusal::State.number();
    }
    let mut state = lent_state(n, *held, *sums);
    match rowfed::feed(
        &mut state,
        plane_of(a, stride_a),
        plane_of(b, stride_b),
        rows,
        scratch,
    ) {
        Ok(()) => {
            put_counts(&state, numbers, sums);
            0
        }
        Err(no) => no.number(),
    }
}

// The same of words.
#[unsafe(no_mangle)]
pub extern "C" fn fuavelino_rows_feed16(
    a: &[u16],
    b: &[u16],
    stride_a: usize,
    stride_b: usize,
    rows: usize,
    scratch: &mut [i64],
    numbers: &mut [u64; 6],
    held: &[u16; 255],
    sums: &mut [f64; 3],
) -> u8
    ensures value { result ≡ answer_number (fed_to true (lent_state numbers.old held.now sums.old)
        a.entry b.entry stride_a stride_b rows scratch.old) }
    ensures scratch_after { scratch.new ≡ left_by true (lent_state numbers.old held.now sums.old)
        a.entry b.entry stride_a stride_b rows scratch.old }
    ensures numbers_after { numbers.new ≡ by_refusal (fed_to true (lent_state numbers.old held.now sums.old)
        a.entry b.entry stride_a stride_b rows scratch.old)
        (numbers_of (state_by true (lent_state numbers.old held.now sums.old) a.entry b.entry stride_a stride_b rows scratch.old))
        numbers.old }
    ensures sums_after { sums.new ≡ by_refusal (fed_to true (lent_state numbers.old held.now sums.old)
        a.entry b.entry stride_a stride_b rows scratch.old)
        (sums_of (state_by true (lent_state numbers.old held.now sums.old) a.entry b.entry stride_a stride_b rows scratch.old))
        sums.old }
{
    let n = *numbers;
    if too_deep(n) {
        return Refusal::State.number();
    }
    let mut state = lent_state(n, *held, *sums);
    match rowfed::feed(
        &mut state,
        plane_of(a, stride_a),
        plane_of(b, stride_b),
        rows,
        scratch,
    ) {
        Ok(()) => {
            put_counts(&state, numbers, sums);
            0
        }
        Err(no) => no.number(),
    }
}

// The pair of all rows: 0; or 15 where the state is impossible, then 8, then 15 where rows are still to come, then 9.
#[unsafe(no_mangle)]
pub extern "C" fn fuavelino_rows_finish(
    scratch: &mut [i64],
    numbers: &[u64; 6],
    held: &[u16; 255],
    sums: &[f64; 3],
    ssim: &mut f64,
    cs: &mut f64,
) -> u8
    ensures value { result ≡ answer_number (finish_of (lent_state numbers.now held.now sums.now) scratch.old) }
    ensures scratch_after { scratch.new ≡ scratch_finished (lent_state numbers.now held.now sums.now) scratch.old }
    ensures ssim_after { ssim.new ≡ ssim_written (finish_of (lent_state numbers.now held.now sums.now) scratch.old)
        ssim.old }
    ensures cs_after { cs.new ≡ cs_written (finish_of (lent_state numbers.now held.now sums.now) scratch.old)
        cs.old }
{
    let n = *numbers;
    if too_deep(n) {
        return Refusal::State.number();
    }
    let state = lent_state(n, *held, *sums);
    put_pair(rowfed::finish(state, scratch), ssim, cs)
}
