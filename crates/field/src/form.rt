// The form of a field: an optional sign, digits with at most one point, and optionally an exponent. Document 01, "Numbers".
ghost use Rattle.std.specs.Prelude.{◌≡◌, Bool, ℕ, cond, ◌+◌, ◌-◌, ◌*◌, ◌<◌, ◌≤◌, ◌^◌, length};
ghost use Rattle.std.proofs.Math.Seq.{slice};
ghost use Rattle.field.specs.Form.{is_sign, is_exponent, starts_minus, without, leading, after, numeral, exponent_of, field_of};

use crate::decimal::Decimal;

// Digits that stand side by side: the number that they say, how many they are, and what follows them.
#[derive(Clone, Copy)]
struct Run<'a> {
    number: u64,
    count: usize,
    rest: &'a [u8],
}

// A power of ten, and whether it has a minus. No exponent is a power of 0.
#[derive(Clone, Copy)]
struct Exponent {
    minus: bool,
    power: u32,
}

fn is_sign(b: u8) -> bool
    ensures { result ≡ is_sign b }
{
    matches!(b, b'+' | b'-')
}

fn is_exponent(b: u8) -> bool
    ensures { result ≡ is_exponent b }
{
    matches!(b, b'E' | b'e')
}

// Whether s starts with a minus.
fn starts_minus(s: &[u8]) -> bool
    ensures { result ≡ starts_minus s.now }
{
    matches!(s, [b'-', ..])
}

// What stands behind a byte of a kind, where s starts with one; and else all of s.
fn past<F: Fn(u8) -> bool>(s: &[u8], is_kind: F) -> &[u8]
    requires { F.IsAlwaysCallable is_kind }
    ensures { (kind : ℕ → Bool) → ((b : ℕ) (r : Bool) → F.post is_kind b r → r ≡ kind b) → result.now ≡ without kind s.now }
{
    match s {
        [b, rest @ ..] if is_kind(*b) => rest,
        _ => s,
    }
}

// The number with one digit more. From 10^15 on, which no 15 digits say, it stands still: such a field is refused.
fn with_digit(number: u64, digit: u8) -> u64
    requires { (number < 10 ^ 16) × (48 ≤ digit) × (digit ≤ 57) }
    ensures small { result < 10 ^ 16 }
    ensures exact { number < 10 ^ 15 → result ≡ 10 * number + (digit - 48) }
{
    if number < 1_000_000_000_000_000 {
        number * 10 + u64::from(digit - b'0')
    } else {
        number
    }
}

// The digits that s starts with, after digits that say a number.
fn digits(s: &[u8], before: u64) -> Run<'_>
    requires { before < 10 ^ 16 }
    ensures small { result.number < 10 ^ 16 }
    ensures count { result.count ≡ length (leading s.now) }
    ensures rest { result.rest.now ≡ after s.now }
    ensures number { numeral before (leading s.now) < 10 ^ 15 → result.number ≡ numeral before (leading s.now) }
{
    let mut number = before;
    let mut rest = s;
    while let [b, behind @ ..] = rest {
        if !b.is_ascii_digit() {
            break;
        }
        number = with_digit(number, *b);
        rest = behind;
    }
    Run {
        number,
        count: s.len() - rest.len(),
        rest,
    }
}

// What stands behind the digits: nothing, or E or e, an optional sign and one or two digits.
fn read_exponent(s: &[u8]) -> Option<Exponent>
    ensures { result ≡ exponent_of s.now }
{
    match s {
        [] => Some(Exponent {
            minus: false,
            power: 0,
        }),
        [letter, signed @ ..] if is_exponent(*letter) => {
            let power = digits(past(signed, is_sign), 0);
            if !power.rest.is_empty() || power.count == 0 || 2 < power.count {
                return None;
            }
            Some(Exponent {
                minus: starts_minus(signed),
                power: power.number as u32,
            })
        }
        _ => None,
    }
}

// The decimal of all its parts: the exponent takes it up, or down beside the decimals.
fn with_exponent(negative: bool, digits: u64, decimals: u32, exponent: Exponent) -> Decimal
    requires { (decimals ≤ 15) × (exponent.power < 100) }
    ensures { result ≡ record { negative = negative; digits = digits; up = cond exponent.minus 0 exponent.power; down = decimals + cond exponent.minus exponent.power 0 } }
{
    let (up, down) = if exponent.minus {
        (0, exponent.power)
    } else {
        (exponent.power, 0)
    };
    Decimal {
        negative,
        digits,
        up,
        down: decimals + down,
    }
}

// All of s as a field; none where its form is wrong.
fn read_all(s: &[u8]) -> Option<Decimal>
    ensures { result ≡ field_of s.now }
{
    let whole = digits(past(s, is_sign), 0);
    let all = digits(past(whole.rest, |b| b == b'.'), whole.number);
    let count = whole.count + all.count;
    if count == 0 || 15 < count {
        return None;
    }
    let exponent = read_exponent(all.rest)?;
    Some(with_exponent(starts_minus(s), all.number, all.count as u32, exponent))
}

// The part of a text from a up to b as a field: its exact decimal, or none where its form is wrong. What lies past the text's end is no part of it.
pub fn read(text: &[u8], a: usize, b: usize) -> Option<Decimal>
    ensures { result ≡ field_of (slice a b text.now) }
{
    let end = b.min(text.len());
    if end <= a {
        return None;
    }
    read_all(&text[a..end])
}
