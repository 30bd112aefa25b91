ghost use Rattle.std.specs.Prelude.{◌≡◌};
ghost use Rattle.items.specs.Numerals.{number_of};

/// The number that a text spells in decimal digits, without a leading zero.
pub fn number(text: &str) -> Option<u64>
    ensures { result ≡ number_of text.now }
{
    let digits = text.as_bytes();
    let Some(first) = digits.first() else {
        return None;
    };
    if *first == b'0' {
        return (digits.len() == 1).then_some(0);
    }
    if *first == b'+' {
        return None;
    }
    text.parse().ok()
}
