// The cells of a row, and their line.
ghost use Rattle.std.specs.Prelude.{◌≡◌, ◌++◌, ◌<◌, ◌∷◌, [], OnOk, decimal, flat_map, map};
ghost use Rattle.std.specs.Char.{digit_char};
ghost use Rattle.std.specs.Fmt.{signed_decimal};
ghost use Rattle.admin_texts.specs.Columns.{line, spaced, printed, spelled, hexadecimal};
ghost use Rattle.admin_texts.specs.Cells.{column_of};
ghost use Rattle.admin_texts.specs.Columns.Column.{text};

use itoa::Buffer;
use std::alloc::AllocError;

/// A cell of a row.
#[derive(Clone, Copy)]
pub(crate) enum Cell<'a> {
    Number(u64),
    Integer(&'a i64),
    Text(&'a [u8]),
    Digest(&'a [u8; 32]),
}

#[tactic(auto, unfolding(crate::specs::Columns::line))]
pub(crate) fn print_line(
    out: &mut Vec<u8>,
    name: &[u8],
    cells: &[Cell<'_>],
) -> Result<(), AllocError>
    ensures { OnOk result (out.new.items ≡ out.old.items ++ line name.now (map column_of cells.now)) }
{
    out.extend_from_slice(name)?;
    print_cells(out, cells)?;
    out.extend_from_slice(b"\n")
}

fn print_cells(out: &mut Vec<u8>, cells: &[Cell<'_>]) -> Result<(), AllocError>
    ensures { OnOk result (out.new.items ≡ out.old.items ++ flat_map spaced (map column_of cells.now)) }
{
    for cell in cells {
        print_cell(out, cell)?;
    }
    Ok(())
}

#[tactic(auto, unfolding(crate::specs::Columns::spaced))]
fn print_cell(out: &mut Vec<u8>, cell: &Cell<'_>) -> Result<(), AllocError>
    ensures { OnOk result (out.new.items ≡ out.old.items ++ spaced (column_of cell.now)) }
{
    out.extend_from_slice(b" ")?;
    match cell {
        Cell::Number(number) => print_number(out, *number),
        Cell::Integer(number) => print_integer(out, **number),
        Cell::Text(bytes) => print_text(out, bytes),
        Cell::Digest(digest) => print_hexadecimal(out, *digest),
    }
}

fn print_number(out: &mut Vec<u8>, number: u64) -> Result<(), AllocError>
    ensures { OnOk result (out.new.items ≡ out.old.items ++ decimal number) }
{
    let mut digits = Buffer::new();
    out.extend_from_slice(digits.format(number).as_bytes())
}

fn print_integer(out: &mut Vec<u8>, number: i64) -> Result<(), AllocError>
    ensures { OnOk result (out.new.items ≡ out.old.items ++ signed_decimal number) }
{
    let mut digits = Buffer::new();
    out.extend_from_slice(digits.format(number).as_bytes())
}

fn print_text(out: &mut Vec<u8>, bytes: &[u8]) -> Result<(), AllocError>
    ensures { OnOk result (out.new.items ≡ out.old.items ++ printed (text bytes.now)) }
{
    out.extend_from_slice(b"\"")?;
    print_spelled(out, bytes)?;
    out.extend_from_slice(b"\"")
}

fn print_spelled(out: &mut Vec<u8>, bytes: &[u8]) -> Result<(), AllocError>
    ensures { OnOk result (out.new.items ≡ out.old.items ++ flat_map spelled bytes.now) }
{
    for byte in bytes {
        print_byte(out, *byte)?;
    }
    Ok(())
}

fn print_hexadecimal(out: &mut Vec<u8>, bytes: &[u8]) -> Result<(), AllocError>
    ensures { OnOk result (out.new.items ≡ out.old.items ++ flat_map hexadecimal bytes.now) }
{
    for byte in bytes {
        out.extend_from_slice(&digits(*byte))?;
    }
    Ok(())
}

fn print_byte(out: &mut Vec<u8>, byte: u8) -> Result<(), AllocError>
    ensures { OnOk result (out.new.items ≡ out.old.items ++ spelled byte) }
{
    match byte {
        b'\r' => out.extend_from_slice(b"\\r"),
        b'\n' => out.extend_from_slice(b"\\n"),
        b'\\' => out.extend_from_slice(b"\\\\"),
        b'"' => out.extend_from_slice(b"\\x22"),
        b' '..=b'~' => out.extend_from_slice(&[byte]),
        _ => {
            let [high, low] = digits(byte);
            out.extend_from_slice(&[b'\\', b'x', high, low])
        }
    }
}

fn digits(byte: u8) -> [u8; 2]
    ensures { result ≡ hexadecimal byte }
{
    [digit(byte / 16), digit(byte % 16)]
}

fn digit(value: u8) -> u8
    requires { value < 16 }
    ensures { result ≡ digit_char value }
{
    if value < 10 {
        b'0' + value
    } else {
        b'a' + (value - 10)
    }
}
