ghost use Rattle.dr_outside.specs.Decimals.{ReadsDecimal};

use itoa::Buffer;

/// The number of 64 bits that these bytes spell in decimal, with no sign and no leading zero. `None`
/// where they spell none.
pub fn read_decimal(bytes: &[u8]) -> Option<u64>
    ensures { ReadsDecimal bytes.now result }
{
    let Ok(text) = str::from_utf8(bytes) else {
        return None;
    };
    match text.parse::<u64>() {
        Ok(number) if Buffer::new().format(number) == text => Some(number),
        _ => None,
    }
}
