//! The names of header keys.

ghost use Rattle.std.specs.Prelude.{◌≡◌, Option};
ghost use Rattle.cell_ascii_meaning.specs.KeyNames.{header_key_with_name};

use cell_ascii_meaning::header_key::HeaderKey;

/// Returns the key with this name.
pub fn header_key_with_name(name: &[u8]) -> Option<HeaderKey>
    ensures { result ≡ header_key_with_name name.now }
{
    if name == b"north".as_slice() {
        Some(HeaderKey::North)
    } else if name == b"south".as_slice() {
        Some(HeaderKey::South)
    } else if name == b"east".as_slice() {
        Some(HeaderKey::East)
    } else if name == b"west".as_slice() {
        Some(HeaderKey::West)
    } else if name == b"rows".as_slice() {
        Some(HeaderKey::Rows)
    } else if name == b"cols".as_slice() {
        Some(HeaderKey::Cols)
    } else if name == b"null".as_slice() {
        Some(HeaderKey::Null)
    } else if name == b"type".as_slice() {
        Some(HeaderKey::CellType)
    } else if name == b"multiplier".as_slice() {
        Some(HeaderKey::Multiplier)
    } else {
        None
    }
}
