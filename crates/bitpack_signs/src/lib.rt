// The first number that is no sign, and laws about signs and their bits. Ported from turbo-quant/src/bitpack.rs and changed: the search is a function of its own.
#![tactic(auto)]

ghost use Rattle.std.specs.Prelude.{◌≡◌, cond, length};
ghost use Rattle.error.specs.Answer.{clear, found};
ghost use Rattle.bitpack.specs.Signs.{bad_sketch_sign, first_bad_sketch_sign_of};

// The place of the first number that is neither -1 nor 1, if there is one.
pub fn first_bad_sketch_sign(signs: &[i8]) -> Option<usize>
    ensures { result ≡ found (first_bad_sketch_sign_of signs.now) (length signs.now) }
{
    if all_signs(signs) {
        return None;
    }
    signs.iter().position(|sign| no_sign(*sign))
}

// Whether a number is neither -1 nor 1.
fn no_sign(sign: i8) -> bool
    ensures { result ≡ bad_sketch_sign sign }
{
    if sign == 1 {
        return false;
    }
    sign != -1
}

// 1 for a number that is neither -1 nor 1, and else 0. A byte is what several numbers at a time can be judged by.
fn stray(sign: i8) -> u8
    ensures { result ≡ cond (bad_sketch_sign sign) 1 0 }
{
    if sign == 1 {
        0
    } else {
        if sign == -1 { 0 } else { 1 }
    }
}

// Whether every number is -1 or 1. The pass goes to the end, so that it is done for several numbers at a time.
fn all_signs(signs: &[i8]) -> bool
    ensures { result ≡ clear bad_sketch_sign signs.now }
{
    let mut ok = true;
    for sign in signs {
        if stray(*sign) != 0 {
            ok = false;
        }
    }
    ok
}
