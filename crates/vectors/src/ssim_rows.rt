// SSIM of two planes: told are where the kernel begins and ends, and how many places of scratch there are.
use crate::rows::Row;
use crate::{table, tell};
use refusal::Refusal;
use ssim::Ssim;

fn ask(r: Row) -> Result<Ssim, Refusal> {
    let [from, end, places] = r.told;
    let taps = table::TAPS;
    let kernel = tell::part_of(&taps, from..end);
    let mut room = [0i64; 512];
    let scratch = room.get_mut(..places).unwrap_or(&mut []);
    if r.wide {
        ssim::score(r.parts(&table::WORDS), kernel, scratch)
    } else {
        ssim::score(r.parts(&table::BYTES), kernel, scratch)
    }
}

pub fn pair_is(r: Row) -> bool {
    r.has(ask(r).map(|s| [s.ssim, s.cs]))
}
