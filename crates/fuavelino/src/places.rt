// How many places the scores need, for callers who lend them. Each call answers for any numbers: 0 says that no plane of such a side is
// taken, so that nothing need be lent to be told so.
ghost use Rattle.std.specs.Prelude.{◌≡◌};
ghost use Rattle.fuavelino.specs.Places.{within, ssim_places, msssim_places, msssim_samples, error_map_places};

fn is_within(least: usize, most: usize, n: usize) -> bool
    ensures { result ≡ within least most n }
{
    (least <= n) & (n <= most)
}

// The 64-bit places of SSIM's scratch; 0 where the width is 0 or above its limit, or the count of taps not 1 to 255.
#[unsafe(no_mangle)]
pub extern "C" fn fuavelino_ssim_places(width: usize, taps: usize) -> usize
    ensures { result ≡ ssim_places width taps }
{
    if is_within(1, plane::SIDE_LIMIT, width) & is_within(1, kernel::MOST_TAPS, taps) {
        ssim::scratch_places(width, taps)
    } else {
        0
    }
}

// The 64-bit places of MS-SSIM's scratch; 0 where the width is below 16 or above its limit.
#[unsafe(no_mangle)]
pub extern "C" fn fuavelino_msssim_places(width: usize) -> usize
    ensures { result ≡ msssim_places width }
{
    if is_within(msssim::LEAST_SIDE, plane::SIDE_LIMIT, width) {
        msssim::places_needed(width)
    } else {
        0
    }
}

// The 32-bit places of MS-SSIM's scratch for each plane; 0 where a side is below 16 or above its limit.
#[unsafe(no_mangle)]
pub extern "C" fn fuavelino_msssim_samples(width: usize, height: usize) -> usize
    ensures { result ≡ msssim_samples width height }
{
    if is_within(msssim::LEAST_SIDE, plane::SIDE_LIMIT, width)
        & is_within(msssim::LEAST_SIDE, plane::SIDE_LIMIT, height)
    {
        msssim::samples_needed(width, height)
    } else {
        0
    }
}

// The 64-bit places of an error map; 0 where a side is 0 or above its limit.
#[unsafe(no_mangle)]
pub extern "C" fn fuavelino_error_map_places(width: usize, height: usize) -> usize
    ensures { result ≡ error_map_places width height }
{
    if is_within(1, plane::SIDE_LIMIT, width) & is_within(1, plane::SIDE_LIMIT, height) {
        locate::map::places(width, height)
    } else {
        0
    }
}
