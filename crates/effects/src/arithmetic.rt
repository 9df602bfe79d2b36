#![tactic(auto, unfolding(model::proofs::Checks::rules))]

ghost use Rattle.std.specs.Prelude.{◌≡◌, pos, ◌≢◌};
ghost use Rattle.words.specs.Meaning.{meaning};
ghost use Rattle.model.specs.Numbers.{quotient};
ghost use Rattle.model.specs.Effects.{put_integer, adding, subtracting, comparing, dividing};
ghost use Rattle.effects.specs.Meant.{Does, AreIntegers};

use super::effect::Effect;
use model::Fault;
use words::Word;

// The integers that two words are, if both are some.
pub(super) fn integers(a: Word, b: Word) -> Result<(i32, i32), Fault>
    ensures { AreIntegers (meaning a) (meaning b) result }
{
    let x = a.integer().ok_or(Fault::WrongKind)?;
    let y = b.integer().ok_or(Fault::WrongKind)?;
    Ok((x, y))
}

pub fn plus(d: u32, a: Word, b: Word) -> Result<Effect, Fault>
    ensures { Does result (adding d (meaning a) (meaning b)) }
{
    let (x, y) = integers(a, b)?;
    put_integer(d, i64::from(x) + i64::from(y))
}

pub fn minus(d: u32, a: Word, b: Word) -> Result<Effect, Fault>
    ensures { Does result (subtracting d (meaning a) (meaning b)) }
{
    let (x, y) = integers(a, b)?;
    put_integer(d, i64::from(x) - i64::from(y))
}

// 1 where the first is below the second, else 0.
pub fn lt(d: u32, a: Word, b: Word) -> Result<Effect, Fault>
    ensures { Does result (comparing d (meaning a) (meaning b)) }
{
    let (x, y) = integers(a, b)?;
    Ok(Effect::Put {
        d,
        word: Word::Int(i32::from(x < y)),
    })
}

pub fn quot(d: u32, a: Word, b: Word) -> Result<Effect, Fault>
    ensures { Does result (dividing d (meaning a) (meaning b)) }
{
    let (x, y) = integers(a, b)?;
    if y == 0 {
        return Err(Fault::ZeroDivisor);
    }
    put_integer(d, nearest(x, y))
}

// The quotient to the nearest integer, halves away from zero. It has 33 bits where the lowest integer is divided by −1.
fn nearest(x: i32, y: i32) -> i64
    requires { y ≢ pos 0 }
    ensures { result ≡ quotient x y }
{
    let dividend = u64::from(x.unsigned_abs());
    let divisor = u64::from(y.unsigned_abs());
    let magnitude = ((2 * dividend + divisor) / (2 * divisor)).cast_signed();
    if (x < 0) == (y < 0) {
        magnitude
    } else {
        -magnitude
    }
}

// The integer goes into the register, if it is one of 32 bits.
fn put_integer(d: u32, value: i64) -> Result<Effect, Fault>
    ensures { Does result (put_integer d value) }
{
    let value = i32::try_from(value).map_err(|_| Fault::OutOfRange)?;
    Ok(Effect::Put {
        d,
        word: Word::Int(value),
    })
}
