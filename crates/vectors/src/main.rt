// Replays the oracle's stored answers (src/table.rt) and prints for each family how many of them the product gives.
#![tactic(auto)]

mod dct_rows;
mod hvs_rows;
mod msssim_rows;
mod planes;
mod psnr_rows;
mod root;
mod rows;
mod series;
mod ssim_rows;
mod table;
mod tell;

use std::io;

fn main(rt: HostRuntime) -> io::Result<()> {
    root::replay_others(&rt)?;
    series::replay(&rt)?;
    root::replay(&rt)?;
    dct_rows::replay(&rt)?;
    rows::replay(&rt)
}
