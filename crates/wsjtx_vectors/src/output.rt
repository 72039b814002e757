// Prints what is answered: a word, a frame, a message, or in its stead the refusal.
use refusal::Refusal;
use std::io;
use std::io::Write;

pub(crate) fn print_bar<W: Write>(out: &mut W) -> io::Result<()> {
    out.write_all(b"|")
}

// What is answered, as `print_value` prints it, or the refusal.
fn print_answer<W: Write, T: Drop, F: FnOnce(&mut W, T) -> io::Result<()>>(
    out: &mut W,
    answer: Result<T, Refusal>,
    print_value: F,
) -> io::Result<()>
    requires { F.IsAlwaysCallable print_value }
{
    match answer {
        Ok(value) => print_value(out, value),
        Err(refusal) => write!(out, "refused {} {}", refusal.number(), refusal.place()),
    }
}

// A word is printed with as many digits as a vector's word has.
pub(crate) fn print_word<W: Write>(out: &mut W, answer: Result<u64, Refusal>) -> io::Result<()> {
    print_answer(out, answer, |out, word| write!(out, "{word:013x}"))
}

fn print_symbols<W: Write>(out: &mut W, symbols: &[u8]) -> io::Result<()> {
    for symbol in symbols {
        write!(out, "{symbol}")?;
    }
    Ok(())
}

// The frame that `write` writes.
pub(crate) fn print_frame<W: Write, F: FnOnce(&mut [u8]) -> Result<(), Refusal>>(
    out: &mut W,
    write: F,
) -> io::Result<()>
    requires { F.IsAlwaysCallable write }
{
    let mut symbols = [0u8; 162];
    let answer = write(&mut symbols);
    print_answer(out, answer, |out, ()| print_symbols(out, &symbols))
}

fn print_fields<W: Write>(
    out: &mut W,
    callsign: &[u8],
    locator: &[u8],
    power: u32,
) -> io::Result<()> {
    out.write_all(callsign)?;
    print_bar(out)?;
    out.write_all(locator)?;
    print_bar(out)?;
    write!(out, "{power}")
}

// The message whose callsign and locator `read` writes, and whose power it answers.
pub(crate) fn print_message<W: Write, F: FnOnce(&mut [u8], &mut [u8]) -> Result<u32, Refusal>>(
    out: &mut W,
    read: F,
) -> io::Result<()>
    requires { F.IsAlwaysCallable read }
{
    let mut callsign = [0u8; 6];
    let mut locator = [0u8; 4];
    let answer = read(&mut callsign, &mut locator);
    print_answer(out, answer, |out, power| {
        print_fields(out, &callsign, &locator, power)
    })
}
