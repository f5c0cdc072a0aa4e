// The words that a line is made of.
ghost use Rattle.std.specs.Prelude.{◌≡◌, ◌^◌, ◌<◌, decimal, Decides};
ghost use Rattle.script.specs.Reading.{Leads, Parts, Plain, Reads};

// Whether the text has neither a plus in front nor a nought in front of more, which `parse` would take.
fn is_plain(text: &[u8]) -> bool
    ensures { Decides result (Plain text.now) }
{
    !matches!(text, [b'+', ..] | [b'0', _, ..])
}

// The number that the text is, in the one way to write it: digits alone, and no nought in front.
#[tactic(auto, using(crate::proofs::Numbers::not_plain, crate::proofs::Numbers::parsed))]
pub fn number(text: &str) -> Option<u64>
    ensures { Reads (λ n. n < 2 ^ 64) decimal text.now result }
{
    if is_plain(text.as_bytes()) {
        text.parse().ok()
    } else {
        None
    }
}

// The same, of a number that fits 32 bits.
pub fn small(text: &str) -> Option<u32>
    ensures { Reads (λ n. n < 2 ^ 32) decimal text.now result }
{
    u32::try_from(number(text)?).ok()
}

// The text before its first space and after it.
pub fn cut(text: &str) -> Option<(&str, &str)>
    ensures { Parts text.now result }
{
    text.split_once(' ')
}

// The number before the first space, and what comes after that space.
#[tactic(auto, using(crate::proofs::Numbers::not_led, crate::proofs::Numbers::not_led_by, crate::proofs::Numbers::led_by))]
pub fn lead(text: &str) -> Option<(u64, &str)>
    ensures { Leads text.now result }
{
    let (n, rest) = cut(text)?;
    Some((number(n)?, rest))
}
