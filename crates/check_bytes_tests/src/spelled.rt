//! Files as texts: fields in hexadecimal digits, parted by spaces. Before a field whose bytes are free stands
//! its name and a colon.
use std::alloc::Global;
use std::test::*;

/// The fields whose bytes are free: nothing else in a store tells what stands in them, so that a check need not
/// find that one was changed.
///
/// | Field | Files | What it is |
/// |---|---|---|
/// | `birth`, `place` | `.row` | which operation added a row, and as which of its documents |
/// | `name`, `number` | `.row`, `.val` | the name and the value of a row's own number, or of one that was set |
/// | `row` | `.val` | which row a number was set in |
/// | `live` | `.liv` | the live bits of eight rows |
/// | `id`, `version` | `segments_S` | which files of a segment an entry of a commit names |
const FREE: [&str; 8] = [
    "birth", "place", "name", "number", "row", "live", "id", "version",
];

/// The bytes of a file, and of each whether it is free.
#[derive(Drop)]
pub(crate) struct Spelling {
    pub(crate) bytes: Vec<u8>,
    free: Vec<bool>,
}

impl Spelling {
    /// Whether the byte at this place is free.
    pub(crate) fn is_free(&self, at: usize) -> bool {
        self.free.get(at) == Some(&true)
    }

    /// The bytes, with this one at this place.
    pub(crate) fn changed(&self, alloc: Global, at: usize, value: u8) -> Result<Vec<u8>, Fail> {
        let mut bytes = self.bytes.to_vec(alloc)?;
        if let Some(byte) = bytes.get_mut(at) {
            *byte = value;
        }
        Ok(bytes)
    }

    /// Adds the bytes of a field.
    fn put(&mut self, digits: &str, is_free: bool) -> Result<(), Fail> {
        for byte in digits.as_bytes().chunks(2) {
            self.bytes.push(byte_of(byte)?)?;
            self.free.push(is_free)?;
        }
        Ok(())
    }
}

/// The byte that two hexadecimal digits are.
fn byte_of(digits: &[u8]) -> Result<u8, Fail> {
    let digits = str::from_utf8(digits).ok().ok_or("no digits")?;
    Ok(u8::from_str_radix(digits, 16).ok().ok_or("no digits")?)
}

/// The file that a text spells. It fails where another field than those is said to be free.
pub(crate) fn spelled(alloc: Global, text: &str) -> Result<Spelling, Fail> {
    let mut file = Spelling {
        bytes: Vec::new(alloc),
        free: Vec::new(alloc),
    };
    for field in text.split_ascii_whitespace() {
        match field.split_once(':') {
            None => file.put(field, false)?,
            Some((name, digits)) if FREE.contains(&name) => file.put(digits, true)?,
            Some(_) => Err("another field is free")?,
        }
    }
    Ok(file)
}
