//! Numbers as text: digits without a leading zero, a minus before a signed one that is below 0.
ghost use Rattle.std.specs.Prelude.{◌≡◌, ◌^◌, min, if◌then◌else◌, Ok, Err};
ghost use Rattle.drawing.specs.declared.number.NumberFault.TheVariants.{Form};
ghost use Rattle.drawing.specs.Numbers.{OnlyDecimal, OnlySigned, numeral?, signed_of, unsigned_of, value};

/// Why bytes are no number.
#[derive(Clone, Copy, PartialEq, Eq)]
pub enum NumberFault {
    /// They are not of the form of a number.
    Form,
    /// They are a number beyond 32 bits.
    TooLarge,
}

/// One more than the largest unsigned number: any larger one counts as this.
const LIMIT: u64 = 1 << 32;

/// The bytes as an unsigned number.
pub fn read_unsigned(text: &[u8]) -> Result<u32, NumberFault>
    ensures value { result ≡ unsigned_of text.now }
    ensures written { OnlyDecimal text.now result }
{
    u32::try_from(capped_value(text)?).map_err(|_| NumberFault::TooLarge)
}

/// The bytes as a signed number.
pub fn read_signed(text: &[u8]) -> Result<i32, NumberFault>
    ensures value { result ≡ signed_of text.now }
    ensures written { OnlySigned text.now result }
{
    let number = match text.strip_prefix(b"-") {
        None => capped_value(text)? as i64,
        Some(digits) => match capped_value(digits)? {
            0 => return Err(NumberFault::Form),
            value => -(value as i64),
        },
    };
    i32::try_from(number).map_err(|_| NumberFault::TooLarge)
}

/// The value of digits without a leading zero, up to the limit.
fn capped_value(text: &[u8]) -> Result<u64, NumberFault>
    ensures { result ≡ (if numeral? text.now then Ok (min (value text.now) (2 ^ 32)) else Err Form) }
{
    if let [] | [b'0', _, ..] = text {
        return Err(NumberFault::Form);
    }
    let mut value = 0;
    for byte in text {
        if !byte.is_ascii_digit() {
            return Err(NumberFault::Form);
        }
        value = (10 * value + u64::from(*byte - b'0')).min(LIMIT);
    }
    Ok(value)
}
