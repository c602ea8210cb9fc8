//! The witnesses of a program.

ghost use Rattle.std.specs.Prelude.{◌≡◌, [], IfOk};
ghost use Rattle.hl_rules.specs.Witnesses.{first_witnesses, listed_witnesses};

use crate::scope::has_name;
use hl_syntax::Wanted;
use std::alloc::{AllocError, Global};

/// Each witness at its first place alone.
#[tactic(auto, using(crate::proofs::FirstPlaces::witness_past, crate::proofs::FirstPlaces::witness_next, crate::proofs::FirstPlaces::no_witness))]
fn first_witnesses(alloc: Global, met: Wanted) -> Result<Wanted, AllocError>
    ensures { IfOk result (λ found. found ≡ first_witnesses [] met) }
{
    let mut found = Wanted::new(alloc);
    'witnesses: for witness in met.into_vec() {
        if !has_name(found.as_slice(), witness.name.as_str()) {
            found.push(witness)?;
        }
    }
    Ok(found)
}

/// The witnesses that a program of an edition has, of those that were met in the text's order: in
/// edition 2 each at its first place alone.
pub fn listed(alloc: Global, edition: u8, met: Wanted) -> Result<Wanted, AllocError>
    ensures { IfOk result (λ found. found ≡ listed_witnesses edition met) }
{
    if edition == 2 {
        return first_witnesses(alloc, met);
    }
    Ok(met)
}
