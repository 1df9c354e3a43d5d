// The values of some tokens.
ghost use Rattle.std.specs.Prelude.{◌≡◌, IfOk};
ghost use Rattle.rib_reader.specs.Values.{scan_of};

use crate::scan::Scan;
use fixed_math::NoMemory;
use rib_lex::Token;
use std::alloc::Global;

/// The values of these tokens.
pub fn scan(alloc: Global, tokens: &[Token]) -> Result<Scan, NoMemory>
    ensures { IfOk result (λ s. s ≡ scan_of tokens.now) }
{
    let mut scan = Scan::new(alloc);
    for token in tokens {
        scan.scan(alloc, &token.kind)?;
    }
    scan.end(alloc)?;
    Ok(scan)
}
