// The number at the front of a text.
ghost use Rattle.std.specs.Prelude.{◌≡◌, ◌<◌, IfOk, length};
ghost use Rattle.std.specs.Result.{result_map_both};
ghost use Rattle.fixed_math.specs.DecimalText.{head_is};
ghost use Rattle.rib_lex.specs.Bytes.{runs_on};
ghost use Rattle.rib_lex.specs.Numbers.{number_at};

use crate::bytes::run_on;
use crate::token::LexCode;
use fixed_math::Decimal;

fn begins_run_on(bytes: &[u8]) -> bool
    ensures { result ≡ head_is runs_on bytes.now }
{
    match bytes {
        [first, ..] => run_on(*first),
        [] => false,
    }
}

/// The number at the front, with what stands behind it.
pub fn number(bytes: &[u8]) -> Result<(Decimal, &[u8]), LexCode>
    ensures gives { result_map_both (λ n. (n.0, n.1.now)) (λ code. code) result ≡ number_at bytes.now }
    ensures shorter { IfOk result (λ n. length n.1.now < length bytes.now) }
{
    match Decimal::read(bytes) {
        Some((decimal, rest)) if !begins_run_on(rest) => Ok((decimal, rest)),
        _ => Err(LexCode::L4),
    }
}
