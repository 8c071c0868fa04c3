// PSNR-HVS of two planes: told are the kind and two zeros.
use crate::rows::Row;
use crate::table;
use psnr_hvs::Kind;
use refusal::Refusal;

// The kind that a row names by its number.
fn kind_of(n: usize) -> Option<Kind> {
    match n {
        0 => Some(Kind::Luma),
        1 => Some(Kind::Cb),
        2 => Some(Kind::Cr),
        _ => None,
    }
}

fn ask(r: Row, kind: Kind) -> Result<f64, Refusal> {
    if r.wide {
        psnr_hvs::psnr_hvs(r.parts(&table::WORDS), kind)
    } else {
        psnr_hvs::psnr_hvs(r.parts(&table::BYTES), kind)
    }
}

pub fn score_is(r: Row) -> bool {
    let Some(kind) = kind_of(r.told[0]) else {
        return false;
    };
    r.has(ask(r, kind).map(|score| [score]))
}
