// Files and standard output, for the programs that print.
#![tactic(auto)]

ghost use Rattle.std.specs.Prelude.{◌≡◌, true, length, IfSome};
ghost use Rattle.files.specs.Counts.{IsPrefixLen};
ghost use Rattle.line.specs.Texts.{written_line};
ghost use Rattle.buffer.specs.Puts.{Put};
ghost use Rattle.printing.specs.Lines.{refused_line, line_fields};

use buffer::put::Output;
use declare::Refusal;
use printing::refused::put_refused;
use std::fs::File;
use std::io::Read;
use std::rt::Files;
use std::str;

// The most bytes of a file.
pub const FILE_BYTES: usize = 32768;

// Reads until the buffer is full, the input ends or a read fails, and returns how many bytes it
// put at the buffer's front.
pub fn read_full(from: &mut impl Read, buffer: &mut [u8]) -> usize
    ensures { IsPrefixLen result buffer.new }
{
    let mut done = 0;
    while done < buffer.len() {
        let n = from.read(&mut buffer[done..]).unwrap_or(0);
        if n == 0 {
            break;
        }
        done += n;
    }
    done
}

// Whether the file has ended. It has not if there is more to read, nor if a read fails, as it does
// in a folder.
fn at_end(file: &mut impl Read) -> bool {
    let mut one = [0u8; 1];
    file.read(&mut one).is_ok_and(|n| n == 0)
}

// The file of that name, opened for reading. Names are text to std, and one that is none names no
// file.
fn open<R: Files>(rt: &R, name: &[u8]) -> Option<R::File> {
    let path = str::from_utf8(name).ok()?;
    File::open(rt, path).ok()
}

// The length of the file, whose bytes stand in front of the buffer. A file that is absent, cannot
// be read or does not fit has none.
fn read_file(rt: &impl Files, name: &[u8], text: &mut [u8; FILE_BYTES]) -> Option<usize>
    ensures { IfSome result (λ length. IsPrefixLen length text.new) }
{
    let mut file = open(rt, name)?;
    let length = read_full(&mut file, text);
    if at_end(&mut file) {
        Some(length)
    } else {
        None
    }
}

// All of the bytes on standard output, and whether that could be done; if not, a line on standard
// error says so, because a list that is cut looks like a whole one.
pub fn print(rt: &(impl Print + Eprint), bytes: &[u8]) -> bool
    ensures { length bytes.now ≡ 0 → result ≡ true }
{
    if bytes.len() == 0 {
        return true;
    }
    match rt.write_all(bytes) {
        Ok(()) => true,
        Err(error) => {
            let _ = eprintln!(rt; "standard output could not be written in full: {error}");
            false
        },
    }
}

// The line of a file that is not read whole: 13, and line 0.
#[tactic(auto, unfolding(declare::specs::Refusals::number_of))]
fn put_unread(out: &mut Output<'_>, word: &[u8])
    ensures { Put (written_line line_fields (refused_line word.now 13 0)) out.old out.new }
{
    put_refused(out, word, Refusal::NoFile.number(), 0);
}

fn print_unread(rt: &(impl Print + Eprint), word: &[u8]) {
    let mut line = [0u8; 64];
    let mut out = Output {
        bytes: &mut line,
        at: 0,
    };
    put_unread(&mut out, word);
    let length = out.at;
    print(rt, &line[..length]);
}

// The length of the file of that name, whose bytes stand in front of the buffer. If it is not read
// whole, its refusal is printed, with the word of its text.
pub fn read_text(
    rt: &(impl Files + Print + Eprint),
    name: &[u8],
    word: &[u8],
    text: &mut [u8; FILE_BYTES],
) -> Option<usize>
    ensures { IfSome result (λ length. IsPrefixLen length text.new) }
{
    let read = read_file(rt, name, text);
    if read.is_none() {
        print_unread(rt, word);
    }
    read
}
