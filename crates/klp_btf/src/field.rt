//! Where a field begins in its struct.
use crate::fault::{BtfFault, FieldName};
use crate::number::{has_text, number_at};
use crate::structs::Struct;
use crate::types::FIELD;

/// Returns where a field begins, by its row. If widths stand there too, they are the upper 8 bits.
fn offset_in(row: &[u8], has_widths: bool, field: FieldName) -> Result<u16, BtfFault> {
    let number = number_at(row, 8).unwrap_or(0);
    let bits = if has_widths {
        number % (1 << 24)
    } else {
        number
    };
    if bits % 8 != 0 {
        return Err(BtfFault::Bits(field));
    }
    match u16::try_from(bits / 8) {
        Ok(offset) => Ok(offset),
        Err(_) => Err(BtfFault::TooLarge(field.of)),
    }
}

/// Returns where the first field of a name begins in a struct, in bytes.
pub(crate) fn field_of(names: &[u8], of: Struct<'_>, name: &'static str) -> Result<u16, BtfFault> {
    let field = FieldName { of: of.name, name };
    let mut rest = of.fields;
    for _ in 0..of.fields.len() {
        let Some(place) = number_at(rest, 0) else {
            break;
        };
        if has_text(names, place as usize, name) {
            return offset_in(rest, of.has_widths, field);
        }
        rest = rest.get(FIELD..).unwrap_or(&[]);
    }
    Err(BtfFault::NoField(field))
}
