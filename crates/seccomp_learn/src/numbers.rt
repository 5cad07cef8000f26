// Numbers as strace and the audit system write them.

/// A number that a line has.
#[derive(Clone, Copy)]
pub(crate) struct Number {
    /// Its value, a negative one in two's complement.
    pub value: u64,
    /// Whether only its low 32 bits are known: strace writes an `int` that is negative without the high half.
    pub is_short: bool,
}

/// The number that an argument of strace is, if it is one: decimal, hexadecimal after `0x`, octal after `0`; 0 for `NULL`; or several of
/// these, joined by `|`. What strace writes after a number, its name or what a descriptor is, is skipped. A shift, as in `1<<2`, is
/// none.
pub(crate) fn number_in(argument: &str) -> Option<Number> {
    let text = match argument.split_once("/*") {
        Some((front, _)) => front,
        None => argument,
    };
    let text = match text.split_once('<') {
        Some((_, behind)) if behind.starts_with('<') => return None,
        Some((front, _)) => front,
        None => text,
    };
    let text = text.trim();
    if let Some(digits) = text.strip_prefix('-') {
        let size = digits.parse::<u64>().ok()?;
        return Some(Number {
            value: size.wrapping_neg(),
            is_short: size <= 1 << 31,
        });
    }
    let mut value = 0;
    for part in text.split('|') {
        value |= unsigned(part)?;
    }
    Some(Number {
        value,
        is_short: false,
    })
}

// The number that a text without a sign is.
fn unsigned(text: &str) -> Option<u64> {
    if let Some(digits) = text.strip_prefix("0x") {
        return u64::from_str_radix(digits, 16).ok();
    }
    if text == "NULL" {
        return Some(0);
    }
    if text.len() > 1 && text.starts_with('0') {
        return u64::from_str_radix(text, 8).ok();
    }
    text.parse().ok()
}
