ghost use Rattle.std.specs.Prelude.{◌≤◌};

use state::refusal::Refusal;
use state::update::Update;
use update_text::read::read;
use update_text::write::write;

const WORKED: &[u8; 68] =
    b"place=0\nnumber=1\na0=600\na1=400\na2=0\na3=0\na4=0\na5=0\na6=0\na7=0\nseal=5\n";

// Writes the text from `pos` on into a buffer of `size` bytes.
fn written(size: usize, pos: usize, update: Update) -> Result<usize, Refusal>
    requires { size ≤ 100 }
{
    let mut buf = [b'.'; 100];
    write(&mut buf[..size], pos, update)
}

fn untouched(bytes: &[u8]) -> bool {
    bytes.iter().all(|b| *b == b'.')
}

// Reads the text, writes it from 3 on, and says whether the same bytes stand there and no other has changed.
fn back(src: &[u8]) -> Result<bool, Refusal> {
    let mut buf = [b'.'; 300];
    let end = write(&mut buf, 3, read(src)?)?;
    Ok(
        buf.get(3..end) == Some(src)
            && untouched(&buf[..3])
            && buf.get(end..).is_some_and(untouched),
    )
}

#[test]
fn the_worked_text_has_68_bytes(rt: HostRuntime) -> Result<(), Refusal> {
    assert_eq!(rt; back(WORKED), Ok(true));
    assert_eq!(rt; written(100, 0, read(WORKED)?), Ok(68));
    Ok(())
}

#[test]
fn texts_are_written_back(rt: HostRuntime) {
    assert_eq!(rt;
        back(
            b"place=63\nnumber=1000000000\na0=0\na1=12\na2=3\na3=4\na4=5\na5=6\na6=7\na7=2099999999999000\nseal=18446744073709551615\n",
        ),
        Ok(true)
    );
    assert_eq!(rt;
        back(b"place=9\nnumber=10\na0=99\na1=100\na2=0\na3=0\na4=0\na5=0\na6=0\na7=1\nseal=0\n"),
        Ok(true)
    );
}

#[test]
fn a_text_fits_or_is_refused(rt: HostRuntime) -> Result<(), Refusal> {
    let update = read(WORKED)?;
    assert_eq!(rt; written(68, 0, update), Ok(68));
    assert_eq!(rt; written(67, 0, update), Err(Refusal::TooSmall));
    assert_eq!(rt; written(100, 32, update), Ok(100));
    assert_eq!(rt; written(100, 33, update), Err(Refusal::TooSmall));
    assert_eq!(rt; written(100, 100, update), Err(Refusal::TooSmall));
    assert_eq!(rt; written(100, 101, update), Err(Refusal::TooSmall));
    assert_eq!(rt; written(100, usize::MAX, update), Err(Refusal::TooSmall));
    assert_eq!(rt; written(0, 0, update), Err(Refusal::TooSmall));
    Ok(())
}

// What reading the text is refused with, if it is.
fn refused(src: &[u8]) -> Option<Refusal> {
    read(src).err()
}

fn newlines(text: &[u8]) -> usize {
    text.iter().filter(|b| **b == b'\n').count()
}

// Whether a text that is cut anywhere is bad at the line of the cut.
fn cuts_are_bad(text: &[u8]) -> bool {
    (0..text.len()).all(|cut| {
        let line = newlines(&text[..cut]).saturating_add(1);
        refused(&text[..cut]) == Some(Refusal::BadLine(line))
    })
}

#[test]
fn a_cut_text_is_bad_at_its_line(rt: HostRuntime) {
    assert_eq!(rt; newlines(WORKED), 11);
    assert!(rt; cuts_are_bad(WORKED));
}

#[test]
fn bad_lines(rt: HostRuntime) {
    assert_eq!(rt; refused(b""), Some(Refusal::BadLine(1)));
    assert_eq!(rt;
        refused(b"place=64\nnumber=01\n"),
        Some(Refusal::BadLine(2))
    );
    assert_eq!(rt; refused(b"place=00\n"), Some(Refusal::BadLine(1)));
    assert_eq!(rt; refused(b"place=+1\n"), Some(Refusal::BadLine(1)));
    assert_eq!(rt; refused(b"place=1 \n"), Some(Refusal::BadLine(1)));
    assert_eq!(rt; refused(b"place=1\r\n"), Some(Refusal::BadLine(1)));
    assert_eq!(rt;
        refused(b"place=1\nnumber=1\na0=18446744073709551616\n"),
        Some(Refusal::BadLine(3))
    );
    assert_eq!(rt;
        refused(b"place=1\nnumber=1\na0=99999999999999999999999999999\n"),
        Some(Refusal::BadLine(3))
    );
    assert_eq!(rt;
        refused(b"place=64\nnumber=0\na0=0\na1=0\na2=0\na3=0\na4=0\na5=0\na6=0\na7=0\nseal=0"),
        Some(Refusal::BadLine(11))
    );
    assert_eq!(rt;
        refused(b"place=64\nnumber=0\na0=0\na1=0\na2=0\na3=0\na4=0\na5=0\na6=0\na7=0\nseal=0\n\n"),
        Some(Refusal::BadLine(12))
    );
}

#[test]
fn checks_of_the_state_come_after_the_lines(rt: HostRuntime) {
    assert_eq!(rt;
        refused(b"place=64\nnumber=0\na0=0\na1=0\na2=0\na3=0\na4=0\na5=0\na6=0\na7=0\nseal=0\n"),
        Some(Refusal::NoSuchPlace)
    );
    assert_eq!(rt;
        refused(b"place=63\nnumber=0\na0=0\na1=0\na2=0\na3=0\na4=0\na5=0\na6=0\na7=0\nseal=0\n"),
        Some(Refusal::BadNumber)
    );
    assert_eq!(rt;
        refused(
            b"place=63\nnumber=1\na0=18446744073709551615\na1=1\na2=0\na3=0\na4=0\na5=0\na6=0\na7=0\nseal=0\n",
        ),
        Some(Refusal::OverLimit)
    );
}
