// The steps of the transform over eight numbers, run and undone: SCOPE, "The transform".
#![tactic(auto)]

mod lift;

ghost use Rattle.std.specs.Prelude.{◌≡◌, [], ◌∷◌};
ghost use Rattle.lifting.specs.Inner.Operation.{run_limit, undo_limit, vals};
ghost use Rattle.lifting.specs.Inner.Within.{AllWithin};
ghost use Rattle.lifting.specs.Steps.{run, steps, undo_all};

use crate::lift::{add, down, down_wide, halved, sub, up, up_wide};

// Eight numbers: t0 to t7.
#[derive(Clone, Copy, Debug, PartialEq, Eq)]
pub struct T8 {
    pub t0: i32,
    pub t1: i32,
    pub t2: i32,
    pub t3: i32,
    pub t4: i32,
    pub t5: i32,
    pub t6: i32,
    pub t7: i32,
}

// The steps, in the order of SCOPE. Past forty lines as laid out: the new form, in stages, is no plainer, since SCOPE has one list.
pub fn run_steps(t0: i32, t1: i32, t2: i32, t3: i32, t4: i32, t5: i32, t6: i32, t7: i32) -> T8
    requires { AllWithin run_limit (t0 ∷ t1 ∷ t2 ∷ t3 ∷ t4 ∷ t5 ∷ t6 ∷ t7 ∷ []) }
    ensures { vals result ≡ run steps (t0 ∷ t1 ∷ t2 ∷ t3 ∷ t4 ∷ t5 ∷ t6 ∷ t7 ∷ []) }
{
    let t1 = sub(t0, t1);
    let h1 = halved(t1);
    let t0 = sub(t0, h1);
    let t4 = add(t4, t5);
    let h4 = halved(t4);
    let t5 = sub(t5, h4);
    let t3 = sub(t2, t3);
    let h3 = halved(t3);
    let t2 = sub(t2, h3);
    let t6 = add(t6, t7);
    let h6 = halved(t6);
    let t7 = sub(h6, t7);
    let t0 = add(t0, h6);
    let t6 = sub(t0, t6);
    let t2 = sub(h4, t2);
    let t4 = sub(t2, t4);
    let t0 = down(t0, t4, 13573, 16384, 15);
    let t4 = up(t4, t0, 11585, 8192, 14);
    let t0 = down(t0, t4, 13573, 16384, 15);
    let t6 = down(t6, t2, 21895, 16384, 15);
    let t2 = up(t2, t6, 15137, 8192, 14);
    let t6 = down(t6, t2, 21895, 16384, 15);
    let t3 = up(t3, t5, 19195, 16384, 15);
    let t5 = up(t5, t3, 11585, 8192, 14);
    let t3 = down(t3, t5, 7489, 4096, 13);
    let h5 = halved(t5);
    let t7 = sub(h5, t7);
    let t5 = sub(t5, t7);
    let t3 = sub(h1, t3);
    let t1 = sub(t1, t3);
    let t7 = up(t7, t1, 3227, 16384, 15);
    let t1 = down(t1, t7, 6393, 16384, 15);
    let t7 = up(t7, t1, 3227, 16384, 15);
    let t5 = up(t5, t3, 2485, 4096, 13);
    let t3 = down(t3, t5, 18205, 16384, 15);
    let t5 = up(t5, t3, 2485, 4096, 13);
    T8 {
        t0,
        t1,
        t2,
        t3,
        t4,
        t5,
        t6,
        t7,
    }
}

// The steps undone, from the last to the first.
pub fn undo_steps(t0: i32, t1: i32, t2: i32, t3: i32, t4: i32, t5: i32, t6: i32, t7: i32) -> T8
    requires { AllWithin undo_limit (t0 ∷ t1 ∷ t2 ∷ t3 ∷ t4 ∷ t5 ∷ t6 ∷ t7 ∷ []) }
    ensures { vals result ≡ run (undo_all steps) (t0 ∷ t1 ∷ t2 ∷ t3 ∷ t4 ∷ t5 ∷ t6 ∷ t7 ∷ []) }
{
    let t5 = down_wide(t5, t3, 2485, 4096, 13);
    let t3 = up_wide(t3, t5, 18205, 16384, 15);
    let t5 = down_wide(t5, t3, 2485, 4096, 13);
    let t7 = down_wide(t7, t1, 3227, 16384, 15);
    let t1 = up_wide(t1, t7, 6393, 16384, 15);
    let t7 = down_wide(t7, t1, 3227, 16384, 15);
    let t1 = add(t1, t3);
    let h1 = halved(t1);
    let t3 = sub(h1, t3);
    let t5 = add(t5, t7);
    let h5 = halved(t5);
    let t7 = sub(h5, t7);
    let t3 = up_wide(t3, t5, 7489, 4096, 13);
    let t5 = down_wide(t5, t3, 11585, 8192, 14);
    let t3 = down_wide(t3, t5, 19195, 16384, 15);
    let t6 = up_wide(t6, t2, 21895, 16384, 15);
    let t2 = down_wide(t2, t6, 15137, 8192, 14);
    let t6 = up_wide(t6, t2, 21895, 16384, 15);
    let t0 = up_wide(t0, t4, 13573, 16384, 15);
    let t4 = down_wide(t4, t0, 11585, 8192, 14);
    let t0 = up_wide(t0, t4, 13573, 16384, 15);
    let t4 = sub(t2, t4);
    let h4 = halved(t4);
    let t2 = sub(h4, t2);
    let t6 = sub(t0, t6);
    let h6 = halved(t6);
    let t0 = sub(t0, h6);
    let t7 = sub(h6, t7);
    let t6 = sub(t6, t7);
    let h3 = halved(t3);
    let t2 = add(t2, h3);
    let t3 = sub(t2, t3);
    let t5 = add(t5, h4);
    let t4 = sub(t4, t5);
    let t0 = add(t0, h1);
    let t1 = sub(t0, t1);
    T8 {
        t0,
        t1,
        t2,
        t3,
        t4,
        t5,
        t6,
        t7,
    }
}
