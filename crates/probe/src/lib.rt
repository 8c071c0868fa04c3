// What the product's library does not export, run by itself: the downscale of MS-SSIM, so that it can be compared with the published one,
// and the plane that `better` hands back, which no other language can be handed. This is no part of the product's library.
#![tactic(auto)]

ghost use Rattle.std.specs.Prelude.{◌≡◌, true, false, length};
ghost use Rattle.refusal.specs.First.{answer_number};
ghost use Rattle.probe.specs.Downscale.{downscale_refusal, Later};
ghost use Rattle.probe.specs.Winner.{winning, sample_written};

use plane::{Format, Plane};
use refusal::Refusal;

// The largest sample that the sums of a scale are made for.
const MOST_SAMPLE: u32 = 1048576;

// The lowest of 2, 5 and 6 that applies.
fn check(longs: &[u32], width: usize, height: usize) -> Result<(), Refusal>
    ensures { result ≡ downscale_refusal width height longs.now }
{
    if !plane::sides_suit(width, height) {
        return Err(Refusal::Size);
    }
    if longs.len() < height * width {
        return Err(Refusal::Short);
    }
    if !plane::none_above(longs, MOST_SAMPLE) {
        return Err(Refusal::Sample);
    }
    Ok(())
}

// The scale below, in place; or 2, 5 or 6, and the places are as they were.
#[unsafe(no_mangle)]
pub extern "C" fn probe_downscale(longs: &mut [u32], width: usize, height: usize) -> u8
    ensures value { result ≡ answer_number (downscale_refusal width height longs.old) }
    ensures later { Later (downscale_refusal width height longs.old) width height longs.old longs.new }
{
    match check(longs, width, height) {
        Ok(()) => {
            downscale::downscale(longs, width, height);
            0
        }
        Err(no) => no.number(),
    }
}

// A plane of a call.
fn plane_of<'a, S>(samples: &'a [S], stride: usize) -> Plane<'a, S>
    ensures { result ≡ (record { samples = samples.entry; stride = stride }) }
{
    Plane { samples, stride }
}

// How long the better of two planes of bytes is, as it is handed back, and its sample `at`, where it has one.
#[unsafe(no_mangle)]
pub extern "C" fn probe_winner8<'o, 'c>(
    o: &'o [u8],
    a: &'c [u8],
    b: &'c [u8],
    width: usize,
    height: usize,
    stride_o: usize,
    stride_a: usize,
    stride_b: usize,
    depth: u32,
    at: usize,
    sample: &mut u8,
) -> usize
    ensures value { result ≡ length (winning false o.entry a.entry b.entry width height stride_o stride_a stride_b depth) }
    ensures sample_after { sample.new ≡ sample_written
        (winning false o.entry a.entry b.entry width height stride_o stride_a stride_b depth) at sample.old }
{
    let format = Format {
        width,
        height,
        depth,
    };
    let winner = better::winner(
        format,
        plane_of(o, stride_o),
        plane_of(a, stride_a),
        plane_of(b, stride_b),
    );
    if at < winner.len() {
        *sample = winner[at];
    }
    winner.len()
}

// The same of words.
#[unsafe(no_mangle)]
pub extern "C" fn probe_winner16<'o, 'c>(
    o: &'o [u16],
    a: &'c [u16],
    b: &'c [u16],
    width: usize,
    height: usize,
    stride_o: usize,
    stride_a: usize,
    stride_b: usize,
    depth: u32,
    at: usize,
    sample: &mut u16,
) -> usize
    ensures value { result ≡ length (winning true o.entry a.entry b.entry width height stride_o stride_a stride_b depth) }
    ensures sample_after { sample.new ≡ sample_written
        (winning true o.entry a.entry b.entry width height stride_o stride_a stride_b depth) at sample.old }
{
    let format = Format {
        width,
        height,
        depth,
    };
    let winner = better::winner(
        format,
        plane_of(o, stride_o),
        plane_of(a, stride_a),
        plane_of(b, stride_b),
    );
    if at < winner.len() {
        *sample = winner[at];
    }
    winner.len()
}
