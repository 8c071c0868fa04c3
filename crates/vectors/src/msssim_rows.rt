// MS-SSIM of two planes that are made by a rule: of each plane `from` is its seed, and `end` how many samples there are; told are how far
// below the largest its samples reach, and two zeros. The places lent are those that 17 by 33 need, and no row asks for more.
use crate::rows::Row;
use msssim::SCALES;
use plane::{Pair, Stored};
use refusal::Refusal;
use ssim::Ssim;
use std::array;

// The samples of a plane, more than any row asks for; and the places lent, of 64 bits and of 32.
const SAMPLES: usize = 640;

const PLACES: usize = 1632;

const ROOM: usize = 561;

// The largest sample of depth 8 and of depth 12, and how many values there are.
const BYTE_MAX: usize = 255;

const WORD_MAX: usize = 4095;

const BYTE_VALUES: usize = 256;

const WORD_VALUES: usize = 4096;

// How far below the largest sample i is: less than `reach`. oracle/src/scaled.rs has the same rule.
fn below(i: usize, seed: usize, reach: usize) -> usize {
    if reach == 0 {
        return 0;
    }
    (i % 4096 * 40503 + seed % 4096 * 30011) % 65521 % reach
}

fn bytes(seed: usize, reach: usize) -> [u8; SAMPLES] {
    array::from_fn(|i| (BYTE_MAX - below(i, seed, reach) % BYTE_VALUES) as u8)
}

fn words(seed: usize, reach: usize) -> [u16; SAMPLES] {
    array::from_fn(|i| (WORD_MAX - below(i, seed, reach) % WORD_VALUES) as u16)
}

fn ask<S: Stored>(p: Pair<'_, S>) -> Result<[Ssim; SCALES], Refusal> {
    let mut scratch = [0i64; PLACES];
    let mut room_a = [0u32; ROOM];
    let mut room_b = [0u32; ROOM];
    msssim::msssim(p, &mut scratch, &mut room_a, &mut room_b)
}

// The ten numbers, as they stand in the list.
fn numbers(pairs: [Ssim; SCALES]) -> [f64; 10] {
    let [one, two, three, four, five] = pairs;
    [
        one.ssim, one.cs, two.ssim, two.cs, three.ssim, three.cs, four.ssim, four.cs, five.ssim,
        five.cs,
    ]
}

pub fn five_are(r: Row) -> bool {
    let reach = r.told[0];
    let five = if r.wide {
        ask(r.fronts(&words(r.a.from, reach), &words(r.b.from, reach)))
    } else {
        ask(r.fronts(&bytes(r.a.from, reach), &bytes(r.b.from, reach)))
    };
    r.has(five.map(numbers))
}
