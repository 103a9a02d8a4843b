//! The values of the predefined data (RAPID Instructions, Functions and Data types, speeddata; RAPID Overview, error
//! recovery).

ghost use Rattle.std.specs.Prelude.{◌≡◌};
ghost use Rattle.rapid_builtins.specs.Data.{num, predefined_datum, speed};

use rapid_model::{
    ERR_ALRDYCNT, ERR_DIVZERO, ERR_INOMAX, ERR_STRTOOLNG, ERR_UNKINO, Predefined, Sort, Value,
};
use rapid_num::Num;

/// The type and the value of a predefined datum (RAPID Instructions, Functions and Data types, speeddata; RAPID
/// Overview, error recovery). `None` exactly if the name has no value known before the run: a type, `fine`, `tool0`,
/// `wobj0`, and `ERRNO`, which changes.
pub fn predefined_datum(name: Predefined) -> Option<(Sort, Value)>
    ensures { result ≡ predefined_datum name }
{
    match name {
        Predefined::V5 => speed(5),
        Predefined::V10 => speed(10),
        Predefined::V20 => speed(20),
        Predefined::V30 => speed(30),
        Predefined::V40 => speed(40),
        Predefined::V50 => speed(50),
        Predefined::V60 => speed(60),
        Predefined::V80 => speed(80),
        Predefined::V100 => speed(100),
        Predefined::V150 => speed(150),
        Predefined::V200 => speed(200),
        Predefined::V300 => speed(300),
        Predefined::V400 => speed(400),
        Predefined::V500 => speed(500),
        Predefined::V600 => speed(600),
        Predefined::V800 => speed(800),
        Predefined::V1000 => speed(1_000),
        Predefined::V1500 => speed(1_500),
        Predefined::V2000 => speed(2_000),
        Predefined::V2500 => speed(2_500),
        Predefined::V3000 => speed(3_000),
        Predefined::V4000 => speed(4_000),
        Predefined::V5000 | Predefined::VMax => speed(5_000),
        Predefined::V6000 => speed(6_000),
        Predefined::V7000 => speed(7_000),
        Predefined::Low => num(0),
        Predefined::High => num(1),
        Predefined::ErrDivZero => error(ERR_DIVZERO),
        Predefined::ErrStrTooLng => error(ERR_STRTOOLNG),
        Predefined::ErrAlrdyCnt => error(ERR_ALRDYCNT),
        Predefined::ErrUnkIno => error(ERR_UNKINO),
        Predefined::ErrINoMax => error(ERR_INOMAX),
        _ => None,
    }
}

/// The number of an error.
fn error(number: u8) -> Option<(Sort, Value)>
    ensures { result ≡ num number }
{
    num(u16::from(number))
}

/// An integer num, always in range.
fn num(whole: u16) -> Option<(Sort, Value)>
    ensures { result ≡ num whole }
{
    let number = Num::new(i64::from(whole) * 1_000)?;
    Some((Sort::Num, Value::Num(number)))
}

/// A speed of the tool in millimetres per second. The other three components are the same for all predefined speeds:
/// 500 degrees, 5000 millimetres and 1000 degrees per second.
fn speed(tool: u16) -> Option<(Sort, Value)>
    ensures { result ≡ speed tool }
{
    let tool = Num::new(i64::from(tool) * 1_000)?;
    let turn = Num::new(500_000)?;
    let axis = Num::new(5_000_000)?;
    let axis_turn = Num::new(1_000_000)?;
    Some((Sort::SpeedData, Value::Speed([tool, turn, axis, axis_turn])))
}
