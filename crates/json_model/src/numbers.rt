ghost use Rattle.std.specs.Prelude.{◌≡◌, ◌↔◌, ℕ, ℤ, get_or, IsTrue, MatchOption};
ghost use Rattle.serde_json.specs.View.{view};
ghost use Rattle.json_model.specs.Numbers.{IsBare, SpellsInteger, SpellsWhole, SpellsShort, SpellsUpTo};

use serde_json::Value as Json;

/// The byte at the place, or 0 past the end of the text.
fn byte_at(text: &str, place: usize) -> u8
    ensures { result ≡ get_or text.now place 0 }
{
    match text.as_bytes().get(place) {
        Some(byte) => *byte,
        None => 0,
    }
}

/// Whether the text of a number has no `+` in front, no 0 behind a `-`, and no 0 in front of another digit.
fn is_bare(text: &str) -> bool
    ensures { IsTrue result ↔ IsBare text.now }
{
    match byte_at(text, 0) {
        b'+' => false,
        b'-' => byte_at(text, 1) != b'0',
        b'0' => text.len() == 1,
        _ => true,
    }
}

/// The whole number of 64 bits with sign that a text spells: an optional `-`, then `0` or digits that don't begin with 0.
#[tactic(auto, using(crate::proofs::Numerals::bare_spells, crate::proofs::Numerals::spells_bare))]
pub fn read_integer(text: &str) -> Option<i64>
    ensures { MatchOption result ((z : ℤ) → SpellsInteger text.now z → ⊥)
        (λ z. SpellsInteger text.now z) }
{
    if text == "-0" {
        return Some(0);
    }
    let Ok(number) = text.parse::<i64>() else {
        return None;
    };
    if !is_bare(text) {
        return None;
    }
    Some(number)
}

/// The whole number of 64 bits with sign that a tree spells: as a JSON number without fraction or exponent, but not `-0`,
/// or as a text.
#[tactic(auto, using(crate::proofs::Wholes::text_whole, crate::proofs::Wholes::no_whole))]
pub fn read_whole(json: &Json) -> Option<i64>
    ensures { MatchOption result ((z : ℤ) → SpellsWhole (view json.now) z → ⊥)
        (λ z. SpellsWhole (view json.now) z) }
{
    if let Some(text) = json.as_str() {
        return read_integer(text);
    }
    json.as_i64()
}

/// The most documents that a filter of a watch stream counts.
pub(crate) const MAX_COUNT: u32 = 2_147_483_647;

/// The last code of a status.
pub(crate) const MAX_CODE: u32 = 16;

/// The last id of a listener.
pub(crate) const MAX_LISTENER_ID: u32 = 4_294_967_295;

/// The whole number from 0 to the most that a tree spells.
pub(crate) fn read_up_to(most: u32, json: &Json) -> Option<u32>
    ensures { MatchOption result ((n : ℕ) → SpellsUpTo most (view json.now) n → ⊥)
        (λ n. SpellsUpTo most (view json.now) n) }
{
    let Some(number) = read_whole(json) else {
        return None;
    };
    let Ok(count) = u32::try_from(number) else {
        return None;
    };
    if count > most {
        return None;
    }
    Some(count)
}

/// The whole number of 32 bits with sign that a tree spells.
pub(crate) fn read_short(json: &Json) -> Option<i32>
    ensures { MatchOption result ((z : ℤ) → SpellsShort (view json.now) z → ⊥)
        (λ z. SpellsShort (view json.now) z) }
{
    let Some(number) = read_whole(json) else {
        return None;
    };
    match i32::try_from(number) {
        Ok(short) => Some(short),
        Err(_) => None,
    }
}
