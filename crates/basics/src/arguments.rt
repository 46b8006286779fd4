// What calls ask of their numbers, and the key of a combination.
ghost use Rattle.std.specs.Prelude.{◌≡◌, if◌then◌else◌, Ok, Err, nat_le, nat_lt};
ghost use Rattle.cache.specs.Entries.{key};
ghost use Rattle.diagram.specs.declared.refusals.Refusal.TheVariants.{NoConnective};

use cache::entries::Key;
use diagram::edges::Edge;
use diagram::refusals::Refusal;

// The number, if it is below the bound; or else the refusal.
pub fn below(number: u32, bound: u32, refusal: Refusal) -> Result<u32, Refusal>
    ensures { result ≡ (if nat_lt number bound then Ok number else Err refusal) }
{
    (number < bound).then_some(number).ok_or(refusal)
}

// The number of a connective; refused if it is over 15.
pub fn checked_connective(connective: u32) -> Result<u8, Refusal>
    ensures { result ≡ (if nat_le connective 15 then Ok connective else Err NoConnective) }
{
    Ok(below(connective, 16, Refusal::NoConnective)? as u8)
}

// The key of a combination.
pub fn key_of(connective: u8, a: Edge, b: Edge) -> Key
    ensures { result ≡ key connective a b }
{
    Key {
        connective,
        left: a,
        right: b,
    }
}
