// The operations of the steps. Each gives the exact result, and a bound on its size that linear arithmetic can follow (`Is`).
ghost use Rattle.std.specs.Prelude.{◌+◌, ◌*◌, ◌/◌, ◌^◌, ◌<◌, ◌+ℤ◌, ◌-ℤ◌, nat_abs};
ghost use Rattle.lifting.specs.Steps.{half, part};
ghost use Rattle.lifting.specs.Inner.Operation.{Is, Factor};

pub fn add(a: i32, b: i32) -> i32
    requires { nat_abs a + nat_abs b < 2 ^ 31 }
    ensures { Is (a +ℤ b) (nat_abs a + nat_abs b) result }
{
    a + b
}

pub fn sub(a: i32, b: i32) -> i32
    requires { nat_abs a + nat_abs b < 2 ^ 31 }
    ensures { Is (a -ℤ b) (nat_abs a + nat_abs b) result }
{
    a - b
}

// a/2 toward zero, as `/` rounds.
pub fn halved(a: i32) -> i32
    ensures { Is (half a) (nat_abs a / 2) result }
{
    a / 2
}

// [a b s]: (a * b + h) >> s, with h = 2^(s-1), where the product is known to fit.
pub fn scaled(a: i32, b: i32, h: i32, s: u32) -> i32
    requires a_bound { nat_abs a < 2 ^ 31 }
    requires h_bound { nat_abs a * nat_abs b + nat_abs h < 2 ^ 31 }
    requires factor { Factor b h s }
    ensures { Is (part a b s) (nat_abs a) result }
{
    (a * b + h) >> s
}

// x + [y b s]
pub fn up(x: i32, y: i32, b: i32, h: i32, s: u32) -> i32
    requires y_bound { nat_abs x + nat_abs y < 2 ^ 31 }
    requires h_bound { nat_abs y * nat_abs b + nat_abs h < 2 ^ 31 }
    requires factor { Factor b h s }
    ensures { Is (x +ℤ part y b s) (nat_abs x + nat_abs y) result }
{
    add(x, scaled(y, b, h, s))
}

// x - [y b s]
pub fn down(x: i32, y: i32, b: i32, h: i32, s: u32) -> i32
    requires y_bound { nat_abs x + nat_abs y < 2 ^ 31 }
    requires h_bound { nat_abs y * nat_abs b + nat_abs h < 2 ^ 31 }
    requires factor { Factor b h s }
    ensures { Is (x -ℤ part y b s) (nat_abs x + nat_abs y) result }
{
    sub(x, scaled(y, b, h, s))
}

// The same three for the inverse, whose products need 38 bits.
pub fn scaled_wide(a: i32, b: i32, h: i32, s: u32) -> i32
    requires a_bound { nat_abs a < 2 ^ 31 }
    requires factor { Factor b h s }
    ensures { Is (part a b s) (nat_abs a) result }
{
    ((a as i64 * b as i64 + h as i64) >> s) as i32
}

pub fn up_wide(x: i32, y: i32, b: i32, h: i32, s: u32) -> i32
    requires y_bound { nat_abs x + nat_abs y < 2 ^ 31 }
    requires factor { Factor b h s }
    ensures { Is (x +ℤ part y b s) (nat_abs x + nat_abs y) result }
{
    add(x, scaled_wide(y, b, h, s))
}

pub fn down_wide(x: i32, y: i32, b: i32, h: i32, s: u32) -> i32
    requires y_bound { nat_abs x + nat_abs y < 2 ^ 31 }
    requires factor { Factor b h s }
    ensures { Is (x -ℤ part y b s) (nat_abs x + nat_abs y) result }
{
    sub(x, scaled_wide(y, b, h, s))
}
