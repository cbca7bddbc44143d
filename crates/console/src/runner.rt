// Carries out command lines on any sector store, and makes what is printed of each.
//
// The output is bytes and not text: what a read prints is whatever was written. Every line prints one line, a refused one too, so that output
// and input can be laid side by side.

ghost use Rattle.std.specs.Prelude.{◌≡◌, ◌≤◌, ◌++◌, length, IfOk, IfSome, Some, OnOk};
ghost use Rattle.console.specs.Commands.{says_read, says_write, said};
ghost use Rattle.console.specs.Lines.{lines, padded, before_zero, bytes_line, refused_line, reply_line};
ghost use Rattle.console.specs.Running.{Does, Asks, ByLine, Adds, Prints};
ghost use Rattle.console.specs.Told.{refused_number};
ghost use Rattle.fast.specs.Told.{read_told, write_told};

use crate::command::Command;
use crate::input::Lines;
use crate::scan::split_once;
use fast::layer::Found;
use fast::refusal::Refusal;
use flash::device::SECTOR_SIZE;
use flash::numbers::Sector;
use std::alloc::{AllocError, Global};
use std::fmt::Display;
use store::store::Store;

// Why a line is refused: it is not understood, or the store refuses the call.
#[derive(Clone, Copy)]
enum Refused {
    NotUnderstood,
    Call(Refusal),
}

impl Refused {
    fn number(self) -> u32
        ensures { result ≡ refused_number self }
    {
        match self {
            Refused::NotUnderstood => 15,
            Refused::Call(refusal) => refusal.number(),
        }
    }
}

// Makes the buffer a text, filled up with zero bytes.
fn pad(buffer: &mut [u8; SECTOR_SIZE], text: &[u8])
    requires { length text.now ≤ 512 }
    ensures { buffer.new ≡ padded text.now }
{
    buffer.fill(0);
    buffer[..text.len()].copy_from_slice(text);
}

// The bytes before the first zero.
fn cut(buffer: &[u8]) -> &[u8]
    ensures { result.now ≡ before_zero buffer.now }
{
    split_once(buffer, 0).map_or(buffer, |(text, _)| text)
}

// What is printed so far. The number of a line is passed beside it: as a part of it, each contract had to say that it stays.
#[derive(Drop)]
struct Output {
    heap: Global,
    bytes: Vec<u8>,
}

impl Output {
    fn push<T: Display + Drop>(&mut self, text: T) -> Result<(), AllocError>
        ensures { OnOk result (IfSome (T.Display.output text) (λ s. self.new.bytes.items ≡ self.old.bytes.items ++ s)) }
    {
        let text = text.to_string(self.heap)?;
        self.bytes.extend_from_slice(text.as_bytes())
    }

    // `line K refused M`
    fn refused(&mut self, line: u64, why: Refused) -> Result<(), AllocError>
        ensures { OnOk result (self.new.bytes.items ≡ self.old.bytes.items ++ refused_line line (refused_number why)) }
    {
        let number = why.number();
        self.push(format_args!("line {line} refused {number}\n"))
    }

    // `w N erases copies`
    fn wrote(
        &mut self,
        line: u64,
        sector: Sector,
        answer: Result<(u32, u32), Refusal>,
        bytes: &[u8],
    ) -> Result<(), AllocError>
        ensures { OnOk result (self.new.bytes.items ≡ self.old.bytes.items ++ reply_line line sector.0 (write_told answer bytes.now)) }
    {
        match answer {
            Err(refusal) => self.refused(line, Refused::Call(refusal)),
            Ok((erases, copies)) => self.push(format_args!("w {sector} {erases} {copies}\n")),
        }
    }

    // `r N =` with the bytes before the first zero
    fn bytes(&mut self, sector: Sector, buffer: &[u8]) -> Result<(), AllocError>
        ensures { OnOk result (self.new.bytes.items ≡ self.old.bytes.items ++ bytes_line sector.0 buffer.now) }
    {
        self.push(format_args!("r {sector} ="))?;
        self.bytes.extend_from_slice(cut(buffer))?;
        self.bytes.push(b'\n')?;
        Ok(())
    }

    // `r N =` with bytes, or `r N -`
    fn read(
        &mut self,
        line: u64,
        sector: Sector,
        answer: Result<Found, Refusal>,
        buffer: &[u8],
    ) -> Result<(), AllocError>
        ensures { OnOk result (self.new.bytes.items ≡ self.old.bytes.items ++ reply_line line sector.0 (read_told answer buffer.now)) }
    {
        match answer {
            Err(refusal) => self.refused(line, Refused::Call(refusal)),
            Ok(Found::NeverWritten) => self.push(format_args!("r {sector} -\n")),
            Ok(Found::Bytes) => self.bytes(sector, buffer),
        }
    }
}

// Writes a text to a sector.
fn run_write<S: Store>(
    store: &mut S,
    line: u64,
    sector: Sector,
    text: &[u8],
    out: &mut Output,
) -> Result<(), AllocError>
    requires { length text.now ≤ 512 }
    ensures adds { OnOk result (S.Store.valid store.old → Adds Does (S.Store.table store.old) line (Some (says_write sector.0 text.now)) out.old.bytes.items out.new.bytes.items (S.Store.table store.new)) }
    ensures made { OnOk result (Adds (Asks S.Store.makes) store.old line (Some (says_write sector.0 text.now)) out.old.bytes.items out.new.bytes.items store.new) }
    ensures stays { S.Store.valid store.old → S.Store.valid store.new }
{
    let mut buffer = [0u8; SECTOR_SIZE];
    pad(&mut buffer, text);
    let answer = store.write(sector, &buffer);
    out.wrote(line, sector, answer, &buffer)
}

// Reads a sector.
fn run_read<S: Store>(
    store: &S,
    line: u64,
    sector: Sector,
    out: &mut Output,
) -> Result<(), AllocError>
    ensures adds { OnOk result (Adds Does (S.Store.table store.now) line (Some (says_read sector.0)) out.old.bytes.items out.new.bytes.items (S.Store.table store.now)) }
    ensures made { OnOk result (Adds (Asks S.Store.makes) store.now line (Some (says_read sector.0)) out.old.bytes.items out.new.bytes.items store.now) }
{
    let mut buffer = [0u8; SECTOR_SIZE];
    let answer = store.read(sector, &mut buffer);
    out.read(line, sector, answer, &buffer)
}

// Carries out one line.
fn run_line<S: Store>(
    store: &mut S,
    line: u64,
    text: &[u8],
    out: &mut Output,
) -> Result<(), AllocError>
    ensures adds { OnOk result (S.Store.valid store.old → Adds Does (S.Store.table store.old) line (said text.now) out.old.bytes.items out.new.bytes.items (S.Store.table store.new)) }
    ensures made { OnOk result (Adds (Asks S.Store.makes) store.old line (said text.now) out.old.bytes.items out.new.bytes.items store.new) }
    ensures stays { S.Store.valid store.old → S.Store.valid store.new }
{
    match Command::parse(text) {
        None => out.refused(line, Refused::NotUnderstood),
        Some(Command::Read { sector }) => run_read(store, line, sector, out),
        Some(Command::Write { sector, text }) => run_write(store, line, sector, text, out),
    }
}

// What the lines of an input print, one after the other. A line ends at byte 10 or at the end of the input; an empty end is no line.
pub fn run<S: Store>(heap: Global, store: &mut S, input: &[u8]) -> Result<Vec<u8>, AllocError>
    ensures prints { IfOk result (λ out. S.Store.valid store.old → Prints (S.Store.table store.old) 1 (lines input.now) out.items (S.Store.table store.new)) }
    ensures made { IfOk result (λ out. ByLine (Asks S.Store.makes) store.old 1 (lines input.now) out.items store.new) }
    ensures stays { S.Store.valid store.old → S.Store.valid store.new }
{
    let mut out = Output {
        heap,
        bytes: Vec::new(heap),
    };
    for (line, text) in (1..).zip(Lines(input)) {
        run_line(store, line, text, &mut out)?;
    }
    Ok(out.bytes)
}
