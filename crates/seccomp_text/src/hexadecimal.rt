// Numbers in lower-case hexadecimal digits, as many as their types take.

ghost use Rattle.std.specs.Prelude.{◌≡◌, ◌<◌};
ghost use Rattle.seccomp_text.specs.Hexadecimal.{hexadecimal, hexadecimal_digit};

// The digit of a number below 16.
fn digit(n: u8) -> u8
    requires { n < 16 }
    ensures { result ≡ hexadecimal_digit n }
{
    if n < 10 { b'0' + n } else { b'a' + (n - 10) }
}

/// The digits of a byte.
pub fn two_digits(n: u8) -> [u8; 2]
    ensures { result ≡ hexadecimal 2 n }
{
    [digit(n / 16), digit(n % 16)]
}

/// The digits of a number of two bytes, the highest first.
pub fn four_digits(n: u16) -> [u8; 4]
    ensures { result ≡ hexadecimal 4 n }
{
    let [high, low] = n.to_be_bytes();
    let [a, b] = two_digits(high);
    let [c, d] = two_digits(low);
    [a, b, c, d]
}

/// The digits of a number of four bytes, the highest first.
pub fn eight_digits(n: u32) -> [u8; 8]
    ensures { result ≡ hexadecimal 8 n }
{
    let [first, second, third, fourth] = n.to_be_bytes();
    let [a, b] = two_digits(first);
    let [c, d] = two_digits(second);
    let [e, f] = two_digits(third);
    let [g, h] = two_digits(fourth);
    [a, b, c, d, e, f, g, h]
}
