// Fields of a word's bits.
#![tactic(auto)]

ghost use Rattle.std.specs.Prelude.{◌≡◌, ◌<◌, ◌^◌};
ghost use Rattle.bits.specs.Field.{field, joined};

// The field of a word that is so many bits wide and has its lowest bit at a place.
// What a width and a place may be is asked here and of `join` alone, so no type says it.
pub fn field_of(word: u64, width: u64, place: u64) -> u64
    requires { (width < 64) × (place < 64) }
    ensures { result ≡ field width place word }
{
    (word >> place) & ((1 << width) - 1)
}

// A word with so many further bits below it.
pub fn join(high: u64, width: u64, low: u64) -> u64
    requires { ((width < 64) × (low < 2 ^ width)) × (joined width high low < 2 ^ 64) }
    ensures { result ≡ joined width high low }
{
    (high << width) | low
}
