ghost use Rattle.std.specs.Prelude.{◌≡◌, ◌≤◌, ◌+◌, ◌<◌, ◌++◌, length, decimal};
ghost use Rattle.arrayvec.specs.ArrayVec.{array_vec_len};
ghost use Rattle.mt_kinds.specs.Types.{name_of_pat_type, name_of_type};
ghost use Rattle.mt_dump.specs.Canon.{number_text, value_text};
ghost use Rattle.mt_output.specs.Lines.{accepted_line, address_text};
ghost use Rattle.mt_regs.specs.Registers.{HasThreeDigits};

use arrayvec::ArrayVec;
use itoa::Buffer;
use mt_dump::{number_text, value_text};
use mt_kinds::{MemType, PatType};

/// How many bytes a line may have.
pub const LINE_ROOM: usize = 224;

/// A line that is put together without memory.
pub type LineBuffer = ArrayVec<u8, LINE_ROOM>;

/// Adds a text to a line.
pub fn append(line: &mut LineBuffer, text: &[u8])
    requires { array_vec_len line.old + length text.now ≤ LINE_ROOM }
    ensures { line.new.items ≡ line.old.items ++ text.now }
{
    line.try_extend_from_slice(text).unwrap();
}

/// Adds a count, of at most twenty digits.
pub fn append_decimal(line: &mut LineBuffer, n: u64)
    requires { array_vec_len line.old + 20 ≤ LINE_ROOM }
    ensures text { line.new.items ≡ line.old.items ++ decimal n }
    ensures short { array_vec_len line.new ≤ array_vec_len line.old + 20 }
{
    let mut buffer = Buffer::new();
    append(line, buffer.format(n).as_bytes());
}

/// Adds an address of 52 bits in thirteen digits.
pub fn append_address(line: &mut LineBuffer, address: u64)
    requires { array_vec_len line.old + 13 ≤ LINE_ROOM }
    ensures text { line.new.items ≡ line.old.items ++ address_text address }
    ensures size { array_vec_len line.new ≡ array_vec_len line.old + 13 }
{
    append(line, &value_text(address)[3..]);
}

/// Adds a value in sixteen digits.
pub fn append_value(line: &mut LineBuffer, value: u64)
    requires { array_vec_len line.old + 16 ≤ LINE_ROOM }
    ensures text { line.new.items ≡ line.old.items ++ value_text value }
    ensures size { array_vec_len line.new ≡ array_vec_len line.old + 16 }
{
    append(line, &value_text(value));
}

/// Adds a register's number in three digits.
pub fn append_number(line: &mut LineBuffer, number: u32)
    requires room { array_vec_len line.old + 3 ≤ LINE_ROOM }
    requires number { HasThreeDigits number }
    ensures text { line.new.items ≡ line.old.items ++ number_text number }
    ensures size { array_vec_len line.new ≡ array_vec_len line.old + 3 }
{
    append(line, &number_text(number));
}

/// Adds the name of a memory type.
pub fn append_type(line: &mut LineBuffer, kind: MemType)
    requires { array_vec_len line.old + 2 ≤ LINE_ROOM }
    ensures text { line.new.items ≡ line.old.items ++ name_of_type kind }
    ensures size { array_vec_len line.new ≡ array_vec_len line.old + 2 }
{
    append(line, kind.name().as_bytes());
}

/// Adds the name of a type of a PAT entry.
pub fn append_pat_type(line: &mut LineBuffer, kind: PatType)
    requires { array_vec_len line.old + 3 ≤ LINE_ROOM }
    ensures text { line.new.items ≡ line.old.items ++ name_of_pat_type kind }
    ensures short { array_vec_len line.new ≤ array_vec_len line.old + 3 }
{
    append(line, kind.name().as_bytes());
}

/// The line about an accepted file.
pub fn accepted_line() -> &'static [u8]
    ensures { result.now ≡ accepted_line }
{
    b"accepted\n"
}
