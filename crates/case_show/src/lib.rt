// What the stored cases print: numbers, each with a blank before it. Whether it fails or not, what was written before stays.
#![tactic(auto)]

ghost use Rattle.case_show.specs.Grows.{Grows};

use std::io;
use std::io::Write;

// Room for a blank and a number of 64 bits.
const ROOM: usize = 21;

// The bytes of a text as they are.
pub fn show_text<W: Write>(writer: &mut W, text: &[u8]) -> io::Result<()>
    ensures { Grows (W.contents writer.old) (W.contents writer.new) }
{
    streams::write_all(writer, text)
}

#[tactic(auto, using(decimal::specs::Shown::few_bytes))]
fn show<W: Write>(writer: &mut W, number: i64) -> io::Result<()>
    ensures { Grows (W.contents writer.old) (W.contents writer.new) }
{
    let mut text = [b' '; ROOM];
    let end = decimal::put_number(&mut text, 1, number);
    show_text(writer, &text[..end])
}

fn show_each<T: Into<i64> + Copy, W: Write>(writer: &mut W, list: &[T]) -> io::Result<()>
    ensures { Grows (W.contents writer.old) (W.contents writer.new) }
{
    for number in list {
        show(writer, (*number).into())?;
    }
    Ok(())
}

// An answer: its number, then what was noted beside it.
pub fn show_answer<W: Write>(writer: &mut W, number: u16, noted: &[i64]) -> io::Result<()>
    ensures { Grows (W.contents writer.old) (W.contents writer.new) }
{
    show(writer, i64::from(number))?;
    show_each(writer, noted)
}

// A list, with a bar before it.
pub fn show_list<T: Into<i64> + Copy, W: Write>(writer: &mut W, list: &[T]) -> io::Result<()>
    ensures { Grows (W.contents writer.old) (W.contents writer.new) }
{
    show_text(writer, b" |")?;
    show_each(writer, list)
}
