// Digits, one after another.
ghost use Rattle.std.specs.Prelude.{◌≡◌, ◌≤◌, length, Some, None, if◌then◌else◌};
ghost use Rattle.hex.specs.Hex.{hex_digit_value};
ghost use Rattle.std.specs.Char.{is_digit};
ghost use Rattle.std.specs.List.{list_all};
ghost use Rattle.std.specs.Str.Parse.{digits_value};

// The value of each byte as a hexadecimal digit, in either case; 255 where it is none.
const VALUES: [u8; 256] = [
    255, 255, 255, 255, 255, 255, 255, 255, 255, 255, 255, 255, 255, 255, 255, 255, 255, 255, 255,
    255, 255, 255, 255, 255, 255, 255, 255, 255, 255, 255, 255, 255, 255, 255, 255, 255, 255, 255,
    255, 255, 255, 255, 255, 255, 255, 255, 255, 255, 0, 1, 2, 3, 4, 5, 6, 7, 8, 9, 255, 255, 255,
    255, 255, 255, 255, 10, 11, 12, 13, 14, 15, 255, 255, 255, 255, 255, 255, 255, 255, 255, 255,
    255, 255, 255, 255, 255, 255, 255, 255, 255, 255, 255, 255, 255, 255, 255, 255, 10, 11, 12, 13,
    14, 15, 255, 255, 255, 255, 255, 255, 255, 255, 255, 255, 255, 255, 255, 255, 255, 255, 255,
    255, 255, 255, 255, 255, 255, 255, 255, 255, 255, 255, 255, 255, 255, 255, 255, 255, 255, 255,
    255, 255, 255, 255, 255, 255, 255, 255, 255, 255, 255, 255, 255, 255, 255, 255, 255, 255, 255,
    255, 255, 255, 255, 255, 255, 255, 255, 255, 255, 255, 255, 255, 255, 255, 255, 255, 255, 255,
    255, 255, 255, 255, 255, 255, 255, 255, 255, 255, 255, 255, 255, 255, 255, 255, 255, 255, 255,
    255, 255, 255, 255, 255, 255, 255, 255, 255, 255, 255, 255, 255, 255, 255, 255, 255, 255, 255,
    255, 255, 255, 255, 255, 255, 255, 255, 255, 255, 255, 255, 255, 255, 255, 255, 255, 255, 255,
    255, 255, 255, 255, 255, 255, 255, 255, 255, 255, 255, 255, 255, 255, 255, 255, 255, 255, 255,
    255, 255, 255,
];

/// The value of a hexadecimal digit, in either case. `None` exactly where the byte is none. It is
/// looked up, since which kind of digit comes next can't be foreseen.
pub fn digit_of(byte: u8) -> Option<u8>
    ensures { result ≡ hex_digit_value byte }
{
    let value = VALUES[byte as usize];
    if value < 16 { Some(value) } else { None }
}

/// The number that at most 12 decimal digits write.
pub fn read_decimal(word: &[u8]) -> Option<u64>
    requires few { length word.now ≤ 12 }
    ensures { result ≡ (if list_all (λ c. is_digit c 10) word.now
        then Some (digits_value 10 word.now) else None) }
{
    let mut number: u64 = 0;
    for byte in word {
        let digit = byte.wrapping_sub(b'0');
        if digit >= 10 {
            return None;
        }
        number = 10 * number + u64::from(digit);
    }
    Some(number)
}

/// The number that at most 12 hexadecimal digits write, in either case.
pub fn read_hexadecimal(word: &[u8]) -> Option<u64>
    requires few { length word.now ≤ 12 }
    ensures { result ≡ (if list_all (λ c. is_digit c 16) word.now
        then Some (digits_value 16 word.now) else None) }
{
    let mut number: u64 = 0;
    for byte in word {
        number = 16 * number + u64::from(digit_of(*byte)?);
    }
    Some(number)
}
