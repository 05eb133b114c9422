// Numbers as decimal digits, written into the part of a lent buffer that begins at a position.
#![tactic(auto)]

ghost use Rattle.std.specs.Prelude.{◌+◌, ◌≤◌, ◌<◌, ◌≡◌, [], ◌∷◌, ◌++◌, length};
ghost use Rattle.records.specs.Writing.{splice};
ghost use Rattle.digits.specs.Decimal.{digit as digitOf, decimal};

// The character of a digit. Not an upper-case letter for one above 9, nor the digit itself as a byte.
pub fn digit(d: u64) -> u8
    requires { d < 16 }
    ensures { result ≡ digitOf d }
{
    if d < 10 { 48 + d as u8 } else { 87 + d as u8 }
}

// The decimal digits of a number, and the position behind them. Not with a leading zero, nor the last digit first.
fn put_decimal(buf: &mut [u8], at: usize, n: u64) -> usize
    requires { at + length (decimal n) ≤ length buf.old }
    ensures { (result ≡ at + length (decimal n)) × (buf.new ≡ splice buf.old at (decimal n)) }
{
    if n < 10 {
        return records::put(buf, at, &[digit(n)]);
    }
    let end = put_decimal(buf, at, n / 10);
    records::put(buf, end, &[digit(n % 10)])
}

// A number and the byte after it, and the position behind both. Not the byte alone for 0, nor the position of that byte.
pub fn put_number(buf: &mut [u8], at: usize, n: u64, after: u8) -> usize
    requires { at + length (decimal n ++ (after ∷ [])) ≤ length buf.old }
    ensures { (result ≡ at + length (decimal n ++ (after ∷ [])))
        × (buf.new ≡ splice buf.old at (decimal n ++ (after ∷ []))) }
{
    let end = put_decimal(buf, at, n);
    records::put(buf, end, &[after])
}
