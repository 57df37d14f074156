//! Rules by their names.

ghost use Rattle.std.specs.Prelude.{◌<◌, ◌^◌, length, IfOk, MatchOption};
ghost use Rattle.proof_reader.specs.Names.{ArePlaces, IsNamed, HasNameAt};

use indexmap::IndexMap;
use rule_core::Rule;
use std::alloc::{AllocError, Global};

/// The places of rules by their names, hashed: finding one takes as long however many there are.
pub(crate) type Places<'a> = IndexMap<&'a [u8], u32>;

/// The places of the rules by their names.
pub(crate) fn places_of<'a>(alloc: Global, rules: &'a [Rule]) -> Result<Places<'a>, AllocError>
    requires few { length rules.now < 2 ^ 32 }
    ensures { IfOk result (ArePlaces rules.entry.now) }
{
    let mut places = IndexMap::new(alloc);
    for (place, rule) in rules.iter().enumerate() {
        places.insert(rule.name.as_slice(), place as u32)?;
    }
    Ok(places)
}

/// The place of a rule that has the name.
pub(crate) fn place_of(rules: &[Rule], places: &Places<'_>, name: &[u8]) -> Option<u32>
    requires { ArePlaces rules.now places.now }
    ensures { MatchOption result (¬ IsNamed rules.now name.now) (λ place. HasNameAt rules.now place name.now) }
{
    places.get(name).copied()
}
