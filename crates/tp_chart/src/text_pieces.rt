//! Pieces of a picture's text.
use std::alloc::AllocError;
use tp_base::Name;
use tp_schedule::SheetName;

pub(crate) fn put_bytes(text: &mut String, bytes: &[u8]) -> Result<(), AllocError> {
    for byte in bytes {
        text.push(char::from(*byte))?;
    }
    Ok(())
}

/// Writes a name. It needs no escape: no byte of a name has a meaning in SVG.
pub(crate) fn put_name(text: &mut String, name: &Name) -> Result<(), AllocError> {
    put_bytes(text, name.as_bytes())
}

/// Writes a copy: its job, its sheet and its number, with dots between.
pub(crate) fn put_copy(text: &mut String, sheet: &SheetName) -> Result<(), AllocError> {
    put_name(text, &sheet.job)?;
    let number = sheet.number;
    let copy = sheet.copy;
    write!(text, ".{number}.{copy}")
}
