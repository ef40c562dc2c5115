// Hexadecimal characters: the digit that one stands for, and the one that stands for a digit.
ghost use Rattle.std.specs.Prelude.{◌≡◌, ◌<◌, IfSome, unwrap_or};
ghost use Rattle.frames.specs.Frame.{digit_value};
ghost use Rattle.frames.specs.Text.{capital};

// Of either letter case. No other character is a digit.
pub fn digit_value(c: u8) -> Option<u32>
    ensures value { unwrap_or result 16 ≡ digit_value c }
    ensures upper_bound { IfSome result (λ digit. digit < 16) }
{
    match c {
        b'0'..=b'9' => Some(u32::from(c - b'0')),
        b'A'..=b'F' => Some(u32::from(c - b'A') + 10),
        b'a'..=b'f' => Some(u32::from(c - b'a') + 10),
        _ => None,
    }
}

// Capitals.
pub fn capital(digit: u32) -> u8
    requires { digit < 16 }
    ensures { result ≡ capital digit }
{
    if digit < 10 {
        b'0' + digit as u8
    } else {
        b'A' + (digit - 10) as u8
    }
}
