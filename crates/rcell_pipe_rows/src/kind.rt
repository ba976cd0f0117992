//! The types of the numbers in a request.

ghost use Rattle.std.specs.Prelude.{◌≡◌, ◌+◌, ◌*◌, ◌<◌, ◌≤◌, length, take, drop, true};
ghost use Rattle.rcell_pipe_rows.specs.Numbers.{cell_type_of_code, byte_size_of_cell_type, raw_number_at_place, can_represent_number};
ghost use Rattle.rcell_pipe_rows.specs.parts.NarrowNumbers.{is_cell_type_within_i32};

/// A number's size in bits, and whether it is signed.
#[derive(Clone, Copy, Debug, PartialEq, Eq)]
pub enum CellType {
    U8,
    I8,
    U16,
    I16,
    U32,
    I32,
    I64,
}

impl CellType {
    /// Returns the type of numbers with this code, from 1 to 7.
    pub fn of_code(code: u8) -> Option<CellType>
        ensures { result ≡ cell_type_of_code code }
    {
        match code {
            1 => Some(CellType::U8),
            2 => Some(CellType::I8),
            3 => Some(CellType::U16),
            4 => Some(CellType::I16),
            5 => Some(CellType::U32),
            6 => Some(CellType::I32),
            7 => Some(CellType::I64),
            _ => None,
        }
    }

    /// Returns the number of bytes of a number.
    pub fn size(self) -> usize
        ensures value { result ≡ byte_size_of_cell_type self }
        ensures some { 0 < result }
        ensures most { result ≤ 8 }
    {
        match self {
            CellType::U8 | CellType::I8 => 1,
            CellType::U16 | CellType::I16 => 2,
            CellType::U32 | CellType::I32 => 4,
            CellType::I64 => 8,
        }
    }

    /// Returns whether the type can represent a number.
    pub fn has(self, number: i64) -> bool
        ensures { result ≡ can_represent_number self number }
    {
        match self {
            CellType::U8 => 0 <= number && number <= 255,
            CellType::I8 => -128 <= number && number <= 127,
            CellType::U16 => 0 <= number && number <= 65535,
            CellType::I16 => -32768 <= number && number <= 32767,
            CellType::U32 => 0 <= number && number <= 4294967295,
            CellType::I32 => -2147483648 <= number && number <= 2147483647,
            CellType::I64 => true,
        }
    }
}

// Returns two bytes, starting at `at`.
#[inline(always)]
fn two_bytes_at(bytes: &[u8], at: usize) -> [u8; 2]
    requires { at + 2 ≤ length bytes.now }
    ensures { result ≡ take 2 (drop at bytes.now) }
{
    [bytes[at], bytes[at + 1]]
}

// Returns four bytes, starting at `at`.
#[inline(always)]
fn four_bytes_at(bytes: &[u8], at: usize) -> [u8; 4]
    requires { at + 4 ≤ length bytes.now }
    ensures { result ≡ take 4 (drop at bytes.now) }
{
    [bytes[at], bytes[at + 1], bytes[at + 2], bytes[at + 3]]
}

// Returns eight bytes, starting at `at`.
#[inline(always)]
fn eight_bytes_at(bytes: &[u8], at: usize) -> [u8; 8]
    requires { at + 8 ≤ length bytes.now }
    ensures { result ≡ take 8 (drop at bytes.now) }
{
    [
        bytes[at],
        bytes[at + 1],
        bytes[at + 2],
        bytes[at + 3],
        bytes[at + 4],
        bytes[at + 5],
        bytes[at + 6],
        bytes[at + 7],
    ]
}

/// Returns the number at index `place` of a row.
#[inline(always)]
pub fn raw_number_at_place(kind: CellType, bytes: &[u8], place: usize) -> i64
    requires { (place + 1) * byte_size_of_cell_type kind ≤ length bytes.now }
    ensures { result ≡ raw_number_at_place kind bytes.now place }
{
    match kind {
        CellType::U8 => i64::from(bytes[place]),
        CellType::I8 => i64::from(i8::from_le_bytes([bytes[place]])),
        CellType::U16 => i64::from(u16::from_le_bytes(two_bytes_at(bytes, 2 * place))),
        CellType::I16 => i64::from(i16::from_le_bytes(two_bytes_at(bytes, 2 * place))),
        CellType::U32 => i64::from(u32::from_le_bytes(four_bytes_at(bytes, 4 * place))),
        CellType::I32 => i64::from(i32::from_le_bytes(four_bytes_at(bytes, 4 * place))),
        CellType::I64 => i64::from_le_bytes(eight_bytes_at(bytes, 8 * place)),
    }
}

/// Returns the number at index `place` of a row whose type fits in an `i32`. A vector register holds more 32-bit than
/// 64-bit numbers.
#[inline(always)]
pub(crate) fn raw_number_at_place_as_i32(kind: CellType, bytes: &[u8], place: usize) -> i32
    requires size { (place + 1) * byte_size_of_cell_type kind ≤ length bytes.now }
    requires narrow { is_cell_type_within_i32 kind ≡ true }
    ensures { result ≡ raw_number_at_place kind bytes.now place }
{
    match kind {
        CellType::U8 => i32::from(bytes[place]),
        CellType::I8 => i32::from(i8::from_le_bytes([bytes[place]])),
        CellType::U16 => i32::from(u16::from_le_bytes(two_bytes_at(bytes, 2 * place))),
        CellType::I16 => i32::from(i16::from_le_bytes(two_bytes_at(bytes, 2 * place))),
        CellType::I32 => i32::from_le_bytes(four_bytes_at(bytes, 4 * place)),
        CellType::U32 | CellType::I64 => 0,
    }
}
